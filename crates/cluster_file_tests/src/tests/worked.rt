// Whole cluster files of worked scenarios, each by its name. They are read without a refusal.
pub const WORKED: [(&[u8], u8, &[u8]); 65] = [
    // append on two clients
    (
        b"version = 1\n[[kernel]]\nname = \"c1\"\n[[kernel]]\nname = \"c2\"\n[[kernel]]\nname = \"s1\"\nserves = [\"/\"]\n[[program]]\nname = \"p\"\ntext = '''\ntext 0 \"/l\"\ntext 8 \"c2\"\ntext 16 \"x\"\nsys fork\nmov r4 r1\njne r4 r5 open\nsys migrate 8 2\nopen:\nsys open 0 2 22\nset r6 0\nset r7 100\nput:\nsys write 0 16 1\naddi r6 1\njlt r6 r7 put\njeq r4 r5 end\nsys wait\nsys size 0\nsys exit r1\nend:\nsys exit 0\n'''\n[[start]]\nhost = \"c1\"\nprogram = \"p\"\n",
        0,
        b"",
    ),
    // append second stream
    (
        b"version = 1\n[[kernel]]\nname = \"c1\"\n[[kernel]]\nname = \"s1\"\nserves = [\"/\"]\n[[program]]\nname = \"p\"\ntext = '''\ntext 0 \"/f\"\ntext 8 \"abcd\"\nsys open 0 2 7\nsys write 0 8 2\nsys open 0 2 18\nsys write 1 10 2\nsys seek 0 0\nsys read 0 16 8\nmov r6 r1\nsys print 16 4\nsys exit r6\n'''\n[[start]]\nhost = \"c1\"\nprogram = \"p\"\n",
        0,
        b"",
    ),
    // append shared log
    (
        b"version = 1\n[[kernel]]\nname = \"c1\"\n[[kernel]]\nname = \"c2\"\n[[kernel]]\nname = \"s1\"\nserves = [\"/\"]\n[[program]]\nname = \"log\"\ntext = '''\ntext 0 \"/log\"\ntext 8 \"c2\"\ntext 16 \"c\\n\"\ntext 18 \"p\\n\"\nsys open 0 4 23\nsys fork\njne r1 r5 parent\nsys migrate 8 2\nsys write 0 16 2\nsys write 0 16 2\nsys write 0 16 2\nsys exit 0\nparent:\nsys wait\nsys write 0 18 2\nsys write 0 18 2\nsys write 0 18 2\nsys seek 0 0\nsys read 0 32 12\nsys print 32 12\nsys exit 0\n'''\n[[start]]\nhost = \"c1\"\nprogram = \"log\"\n",
        0,
        b"",
    ),
    // append without write
    (
        b"version = 1\n[[kernel]]\nname = \"c1\"\n[[kernel]]\nname = \"s1\"\nserves = [\"/\"]\n[[program]]\nname = \"p\"\ntext = '''\ntext 0 \"/f\"\nsys open 0 2 17\nsys exit r0\n'''\n[[start]]\nhost = \"c1\"\nprogram = \"p\"\n",
        0,
        b"",
    ),
    // bad step ends child
    (
        b"version = 1\n[[kernel]]\nname = \"c1\"\n[[kernel]]\nname = \"s1\"\nserves = [\"/\"]\n[[program]]\nname = \"p\"\ntext = '''\nsys print 4090 10\nmov r6 r0\nsys fork\njeq r1 r5 child\nsys wait\nsys exit r6\nchild:\ndiv r1 r5\n'''\n[[start]]\nhost = \"c1\"\nprogram = \"p\"\n",
        0,
        b"",
    ),
    // bad step past last instruction
    (
        b"version = 1\n[[kernel]]\nname = \"c1\"\n[[kernel]]\nname = \"s1\"\nserves = [\"/\"]\n[[program]]\nname = \"hello\"\ntext = '''\ntext 0 \"hello\\n\"\nsys print 0 6\nsys print 4090 10\n'''\n[[start]]\nhost = \"c1\"\nprogram = \"hello\"\n",
        0,
        b"",
    ),
    // bad step word over last byte
    (
        b"version = 1\n[[kernel]]\nname = \"c1\"\n[[kernel]]\nname = \"s1\"\nserves = [\"/\"]\n[[program]]\nname = \"p\"\ntext = '''\nset r1 4089\nldw r2 r1\nsys exit 0\n'''\n[[program]]\nname = \"q\"\ntext = '''\nset r1 4088\nldw r2 r1\nsys exit 0\n'''\n[[start]]\nhost = \"c1\"\nprogram = \"p\"\n[[start]]\nhost = \"c1\"\nprogram = \"q\"\n",
        0,
        b"",
    ),
    // broadcast given up
    (
        b"version = 1\n[[kernel]]\nname = \"c1\"\n[[kernel]]\nname = \"s1\"\nserves = [\"/\"]\n[[program]]\nname = \"p\"\ntext = '''\ntext 0 \"/f\"\nsys open 0 2 6\nsys exit r0\n'''\n[[start]]\nhost = \"c1\"\nprogram = \"p\"\n[[link]]\nfrom = \"c1\"\nto = \"s1\"\nfirst = 1\ncount = 8\n",
        0,
        b"",
    ),
    // broadcast given up nocache
    (
        b"version = 1\ncache = 0\n[[kernel]]\nname = \"c1\"\n[[kernel]]\nname = \"s1\"\nserves = [\"/\"]\n[[program]]\nname = \"p\"\ntext = '''\ntext 0 \"/f\"\nsys open 0 2 6\nsys exit r0\n'''\n[[start]]\nhost = \"c1\"\nprogram = \"p\"\n[[link]]\nfrom = \"c1\"\nto = \"s1\"\nfirst = 1\ncount = 8\n",
        0,
        b"",
    ),
    // budget endless loop
    (
        b"version = 1\nbudget = 100\n[[kernel]]\nname = \"c1\"\n[[kernel]]\nname = \"s1\"\nserves = [\"/\"]\n[[program]]\nname = \"loop\"\ntext = '''\ntop:\naddi r1 1\njmp top\n'''\n[[start]]\nhost = \"c1\"\nprogram = \"loop\"\n",
        0,
        b"",
    ),
    // console empty and open lines
    (
        b"version = 1\n[[kernel]]\nname = \"c1\"\n[[kernel]]\nname = \"s1\"\nserves = [\"/\"]\n[[program]]\nname = \"p\"\ntext = '''\ntext 0 \"a\\n\\nb\"\nsys print 0 3\nsys print 3 1\nsys exit 0\n'''\n[[start]]\nhost = \"c1\"\nprogram = \"p\"\n",
        0,
        b"",
    ),
    // device dead master
    (
        b"version = 1\n[[kernel]]\nname = \"c1\"\n[[kernel]]\nname = \"c2\"\n[[kernel]]\nname = \"s1\"\nserves = [\"/\"]\n[[program]]\nname = \"m\"\ntext = '''\ntext 0 \"/echo\"\nsys pd_make 0 5\nsys exit 0\n'''\n[[program]]\nname = \"u\"\ntext = '''\ntext 0 \"/echo\"\ntext 8 \"ping\"\nagain:\nsys open 0 5 3\njne r0 r5 again\nsys write 0 8 4\nsys exit r0\n'''\n[[start]]\nhost = \"c1\"\nprogram = \"m\"\n[[start]]\nhost = \"c2\"\nprogram = \"u\"\n",
        0,
        b"",
    ),
    // device deadlock avoided
    (
        b"version = 1\n[[kernel]]\nname = \"c1\"\n[[kernel]]\nname = \"c2\"\n[[kernel]]\nname = \"s1\"\nserves = [\"/\"]\n[[program]]\nname = \"a\"\ntext = '''\ntext 0 \"/pa\"\ntext 8 \"/pb\"\nsys pd_make 0 3\nagain:\nsys open 8 3 1\njne r0 r5 again\nsys read 1 16 1\nsys pd_get 0 32 64\nsys pd_put 0 0 1 0\nsys exit 0\n'''\n[[program]]\nname = \"b\"\ntext = '''\ntext 0 \"/pb\"\ntext 8 \"/pa\"\nsys pd_make 0 3\nagain:\nsys open 8 3 1\njne r0 r5 again\nsys pd_get 0 32 64\nsys pd_put 0 0 1 0\nsys read 1 16 1\nsys exit 0\n'''\n[[start]]\nhost = \"c1\"\nprogram = \"a\"\n[[start]]\nhost = \"c2\"\nprogram = \"b\"\n",
        0,
        b"",
    ),
    // device deadlock stalled
    (
        b"version = 1\n[[kernel]]\nname = \"c1\"\n[[kernel]]\nname = \"c2\"\n[[kernel]]\nname = \"s1\"\nserves = [\"/\"]\n[[program]]\nname = \"a\"\ntext = '''\ntext 0 \"/pa\"\ntext 8 \"/pb\"\nsys pd_make 0 3\nagain:\nsys open 8 3 1\njne r0 r5 again\nsys read 1 16 1\nsys exit 0\n'''\n[[program]]\nname = \"b\"\ntext = '''\ntext 0 \"/pb\"\ntext 8 \"/pa\"\nsys pd_make 0 3\nagain:\nsys open 8 3 1\njne r0 r5 again\nsys read 1 16 1\nsys exit 0\n'''\n[[start]]\nhost = \"c1\"\nprogram = \"a\"\n[[start]]\nhost = \"c2\"\nprogram = \"b\"\n",
        0,
        b"",
    ),
    // device echo server
    (
        b"version = 1\n[[kernel]]\nname = \"c1\"\n[[kernel]]\nname = \"c2\"\n[[kernel]]\nname = \"s1\"\nserves = [\"/\"]\n[[program]]\nname = \"m\"\ntext = '''\ntext 0 \"/echo\"\ntext 8 \"c2\"\nsys pd_make 0 5\nsys migrate 8 2\nmov r6 r0\nsys pd_get 0 64 1024\nset r3 64\nset r4 68\nset r1 32\nup:\nldb r2 r3\nsub r2 r1\nstb r3 r2\naddi r3 1\njlt r3 r4 up\nsys pd_put 0 0 0 0\nsys pd_get 0 512 64\nsys pd_put 0 64 4 0\nsys exit r6\n'''\n[[program]]\nname = \"u\"\ntext = '''\ntext 0 \"/echo\"\ntext 8 \"ping\"\nagain:\nsys open 0 5 3\njne r0 r5 again\nsys write 0 8 4\nsys read 0 16 4\nsys print 16 4\nsys exit 0\n'''\n[[start]]\nhost = \"c1\"\nprogram = \"m\"\n[[start]]\nhost = \"c2\"\nprogram = \"u\"\n",
        0,
        b"",
    ),
    // device echo server lossy
    (
        b"version = 1\n[[kernel]]\nname = \"c1\"\n[[kernel]]\nname = \"c2\"\n[[kernel]]\nname = \"s1\"\nserves = [\"/\"]\n[[program]]\nname = \"m\"\ntext = '''\ntext 0 \"/echo\"\ntext 8 \"c2\"\nsys pd_make 0 5\nsys migrate 8 2\nmov r6 r0\nsys pd_get 0 64 1024\nset r3 64\nset r4 68\nset r1 32\nup:\nldb r2 r3\nsub r2 r1\nstb r3 r2\naddi r3 1\njlt r3 r4 up\nsys pd_put 0 0 0 0\nsys pd_get 0 512 64\nsys pd_put 0 64 4 0\nsys exit r6\n'''\n[[program]]\nname = \"u\"\ntext = '''\ntext 0 \"/echo\"\ntext 8 \"ping\"\nagain:\nsys open 0 5 3\njne r0 r5 again\nsys write 0 8 4\nsys read 0 16 4\nsys print 16 4\nsys exit 0\n'''\n[[start]]\nhost = \"c1\"\nprogram = \"m\"\n[[start]]\nhost = \"c2\"\nprogram = \"u\"\n[[link]]\nfrom = \"*\"\nto = \"*\"\nfirst = 3\nevery = 3\n",
        0,
        b"",
    ),
    // directory calls
    (
        b"version = 1\ncache = 0\n[[kernel]]\nname = \"c1\"\n[[kernel]]\nname = \"s1\"\nserves = [\"/\"]\n[[program]]\nname = \"p\"\ntext = '''\ntext 0 \"/d\"\ntext 8 \"/d/x\"\ntext 16 \"/d/y\"\nsys mkdir 0 2\nsys open 8 4 6\nsys open 16 4 6\nsys rename 8 4 16 4\nmov r6 r0\nsys list 0 2 32 100\nsys print 32 4\nsys rmdir 0 2\nadd r6 r0\nsys unlink 8 4\nsys stat 0 2\nadd r6 r2\nsys exit r6\n'''\n[[start]]\nhost = \"c1\"\nprogram = \"p\"\n",
        0,
        b"",
    ),
    // domains on three servers
    (
        b"version = 1\n[[kernel]]\nname = \"c1\"\n[[kernel]]\nname = \"s1\"\nserves = [\"/\"]\n[[kernel]]\nname = \"s2\"\nserves = [\"/a\"]\n[[kernel]]\nname = \"s3\"\nserves = [\"/a/b\"]\n[[program]]\nname = \"p\"\ntext = '''\ntext 0 \"/a/b/f\"\ntext 8 \"/a/b\"\ntext 16 \"/x\"\ntext 20 \"/a/x\"\nsys open 0 6 1\nsys read 0 32 2\nsys print 32 2\nsys rmdir 8 4\nmov r6 r0\nsys rename 16 2 20 4\nadd r6 r0\nsys exit r6\n'''\n[[start]]\nhost = \"c1\"\nprogram = \"p\"\n[[file]]\npath = \"/a/b/f\"\ntext = \"hi\"\n",
        0,
        b"",
    ),
    // domains on three servers nocache
    (
        b"version = 1\ncache = 0\n[[kernel]]\nname = \"c1\"\n[[kernel]]\nname = \"s1\"\nserves = [\"/\"]\n[[kernel]]\nname = \"s2\"\nserves = [\"/a\"]\n[[kernel]]\nname = \"s3\"\nserves = [\"/a/b\"]\n[[program]]\nname = \"p\"\ntext = '''\ntext 0 \"/a/b/f\"\ntext 8 \"/a/b\"\ntext 16 \"/x\"\ntext 20 \"/a/x\"\nsys open 0 6 1\nsys read 0 32 2\nsys print 32 2\nsys rmdir 8 4\nmov r6 r0\nsys rename 16 2 20 4\nadd r6 r0\nsys exit r6\n'''\n[[start]]\nhost = \"c1\"\nprogram = \"p\"\n[[file]]\npath = \"/a/b/f\"\ntext = \"hi\"\n",
        0,
        b"",
    ),
    // echo given up then noentry
    (
        b"version = 1\n[[kernel]]\nname = \"c1\"\n[[kernel]]\nname = \"s1\"\nserves = [\"/\"]\n[[program]]\nname = \"p\"\ntext = '''\ntext 0 \"/f\"\nsys open 0 2 6\nmov r6 r0\nsys open 0 2 1\nadd r6 r0\nsys exit r6\n'''\n[[start]]\nhost = \"c1\"\nprogram = \"p\"\n[[link]]\nfrom = \"c1\"\nto = \"s1\"\nfirst = 2\ncount = 8\n",
        0,
        b"",
    ),
    // echo given up then noentry nocache
    (
        b"version = 1\ncache = 0\n[[kernel]]\nname = \"c1\"\n[[kernel]]\nname = \"s1\"\nserves = [\"/\"]\n[[program]]\nname = \"p\"\ntext = '''\ntext 0 \"/f\"\nsys open 0 2 6\nmov r6 r0\nsys open 0 2 1\nadd r6 r0\nsys exit r6\n'''\n[[start]]\nhost = \"c1\"\nprogram = \"p\"\n[[link]]\nfrom = \"c1\"\nto = \"s1\"\nfirst = 2\ncount = 8\n",
        0,
        b"",
    ),
    // every packet lost
    (
        b"version = 1\n[[kernel]]\nname = \"c1\"\n[[kernel]]\nname = \"s1\"\nserves = [\"/\"]\n[[program]]\nname = \"p\"\ntext = '''\ntext 0 \"/f\"\nsys open 0 2 6\nsys exit r0\n'''\n[[start]]\nhost = \"c1\"\nprogram = \"p\"\n[[link]]\nfrom = \"*\"\nto = \"*\"\n",
        0,
        b"",
    ),
    // every packet lost nocache
    (
        b"version = 1\ncache = 0\n[[kernel]]\nname = \"c1\"\n[[kernel]]\nname = \"s1\"\nserves = [\"/\"]\n[[program]]\nname = \"p\"\ntext = '''\ntext 0 \"/f\"\nsys open 0 2 6\nsys exit r0\n'''\n[[start]]\nhost = \"c1\"\nprogram = \"p\"\n[[link]]\nfrom = \"*\"\nto = \"*\"\n",
        0,
        b"",
    ),
    // eviction after two calls
    (
        b"version = 1\n[[kernel]]\nname = \"c1\"\n[[kernel]]\nname = \"c2\"\n[[kernel]]\nname = \"s1\"\nserves = [\"/\"]\n[[program]]\nname = \"p\"\ntext = '''\ntext 0 \"c2\"\nsys migrate 0 2\nsys print 0 2\nsys print 0 2\nsys print 0 2\nsys exit 0\n'''\n[[start]]\nhost = \"c1\"\nprogram = \"p\"\n[[evict]]\nhost = \"c2\"\nafter = 2\n",
        0,
        b"",
    ),
    // exec in child
    (
        b"version = 1\n[[kernel]]\nname = \"c1\"\n[[kernel]]\nname = \"s1\"\nserves = [\"/\"]\n[[program]]\nname = \"a\"\ntext = '''\ntext 0 \"b\"\nsys fork\njne r1 r5 parent\nsys exec 0 1 7\nparent:\nsys wait\nsys exit r2\n'''\n[[program]]\nname = \"b\"\ntext = '''\nsys exit r1\n'''\n[[start]]\nhost = \"c1\"\nprogram = \"a\"\n",
        0,
        b"",
    ),
    // first eight packets lost
    (
        b"version = 1\ncache = 0\n[[kernel]]\nname = \"c1\"\n[[kernel]]\nname = \"s1\"\nserves = [\"/\"]\n[[program]]\nname = \"p\"\ntext = '''\ntext 0 \"/f\"\nsys open 0 2 6\nmov r6 r0\nsys open 0 2 1\nadd r6 r0\nsys exit r6\n'''\n[[start]]\nhost = \"c1\"\nprogram = \"p\"\n[[link]]\nfrom = \"c1\"\nto = \"s1\"\nfirst = 1\ncount = 8\n",
        0,
        b"",
    ),
    // foreign process served by home
    (
        b"version = 1\n[[kernel]]\nname = \"c1\"\n[[kernel]]\nname = \"c2\"\n[[kernel]]\nname = \"s1\"\nserves = [\"/\"]\n[[program]]\nname = \"p\"\ntext = '''\ntext 0 \"c2\"\ntext 2 \"s1\"\nsys migrate 0 2\nsys host 16 16\nsys print 16 2\nsys tick\nmov r6 r1\nsys tick\nadd r6 r1\nsys getppid\nadd r6 r1\nsys fork\njeq r1 r5 child\nsys wait\nadd r6 r2\nsys migrate 2 2\nadd r6 r0\nsys exit r6\nchild:\nsys exit 7\n'''\n[[start]]\nhost = \"c1\"\nprogram = \"p\"\n",
        0,
        b"",
    ),
    // hello
    (
        b"version = 1\n[[kernel]]\nname = \"c1\"\n[[kernel]]\nname = \"s1\"\nserves = [\"/\"]\n[[program]]\nname = \"hello\"\ntext = '''\ntext 0 \"hello\\n\"\nsys print 0 6\nsys exit 0\n'''\n[[start]]\nhost = \"c1\"\nprogram = \"hello\"\n",
        0,
        b"",
    ),
    // kill breaks off pd get
    (
        b"version = 1\n[[kernel]]\nname = \"c1\"\n[[kernel]]\nname = \"c2\"\n[[kernel]]\nname = \"s1\"\nserves = [\"/\"]\n[[program]]\nname = \"k\"\ntext = '''\ntext 0 \"/k\"\nsys fork\njeq r1 r5 child\nsys kill r1\nsys wait\nsys exit r2\nchild:\nsys pd_make 0 2\nmore:\nsys pd_get 0 64 64\njmp more\n'''\n[[start]]\nhost = \"c1\"\nprogram = \"k\"\n",
        0,
        b"",
    ),
    // kill running child
    (
        b"version = 1\n[[kernel]]\nname = \"c1\"\n[[kernel]]\nname = \"s1\"\nserves = [\"/\"]\n[[program]]\nname = \"k\"\ntext = '''\nsys fork\njeq r1 r5 child\nsys kill r1\nsys wait\nsys exit r2\nchild:\nsys tick\njmp child\n'''\n[[start]]\nhost = \"c1\"\nprogram = \"k\"\n",
        0,
        b"",
    ),
    // lost open replies open once
    (
        b"version = 1\n[[kernel]]\nname = \"c1\"\n[[kernel]]\nname = \"s1\"\nserves = [\"/\"]\n[[program]]\nname = \"p\"\ntext = '''\ntext 0 \"/f\"\nset r6 16\nsys open 0 2 6\naddi r1 48\nstb r6 r1\nsys print 16 1\nsys exit 0\n'''\n[[start]]\nhost = \"c1\"\nprogram = \"p\"\n[[link]]\nfrom = \"s1\"\nto = \"c1\"\nfirst = 3\ncount = 2\n",
        0,
        b"",
    ),
    // lost open replies open once nocache
    (
        b"version = 1\ncache = 0\n[[kernel]]\nname = \"c1\"\n[[kernel]]\nname = \"s1\"\nserves = [\"/\"]\n[[program]]\nname = \"p\"\ntext = '''\ntext 0 \"/f\"\nset r6 16\nsys open 0 2 6\naddi r1 48\nstb r6 r1\nsys print 16 1\nsys exit 0\n'''\n[[start]]\nhost = \"c1\"\nprogram = \"p\"\n[[link]]\nfrom = \"s1\"\nto = \"c1\"\nfirst = 3\ncount = 2\n",
        0,
        b"",
    ),
    // lost open replies without broadcast
    (
        b"version = 1\ncache = 0\n[[kernel]]\nname = \"c1\"\n[[kernel]]\nname = \"s1\"\nserves = [\"/\"]\n[[program]]\nname = \"p\"\ntext = '''\ntext 0 \"/f\"\nset r6 16\nsys open 0 2 6\naddi r1 48\nstb r6 r1\nsys print 16 1\nsys exit 0\n'''\n[[start]]\nhost = \"c1\"\nprogram = \"p\"\n[[link]]\nfrom = \"s1\"\nto = \"c1\"\nfirst = 2\ncount = 2\n",
        0,
        b"",
    ),
    // lost reads end at budget
    (
        b"version = 1\nbudget = 1000\ncache = 0\n[[kernel]]\nname = \"c1\"\n[[kernel]]\nname = \"s1\"\nserves = [\"/\"]\n[[program]]\nname = \"p\"\ntext = '''\ntext 0 \"/f\"\nsys open 0 2 7\nsys read 0 16 1\nsys exit 0\n'''\n[[start]]\nhost = \"c1\"\nprogram = \"p\"\n[[link]]\nfrom = \"c1\"\nto = \"s1\"\nfirst = 4\n",
        0,
        b"",
    ),
    // lru cyclic reads stats
    (
        b"version = 1\ncache = 8\n[[kernel]]\nname = \"c1\"\n[[kernel]]\nname = \"s1\"\nserves = [\"/\"]\n[[program]]\nname = \"p\"\ntext = '''\npages 2\ntext 0 \"/src\"\nsys open 0 4 1\nset r3 0\nset r4 2\nset r7 12\npass:\nsys seek 0 0\nset r6 0\nget:\nsys read 0 4096 4096\naddi r6 1\njlt r6 r7 get\naddi r3 1\njlt r3 r4 pass\nsys exit 0\n'''\n[[start]]\nhost = \"c1\"\nprogram = \"p\"\n[[file]]\npath = \"/src\"\ntext = \"abcd\"\nrepeat = 12288\n",
        0,
        b"",
    ),
    // make on four clients
    (
        b"version = 1\nbudget = 4000000\n[[kernel]]\nname = \"c1\"\n[[kernel]]\nname = \"c2\"\n[[kernel]]\nname = \"c3\"\n[[kernel]]\nname = \"c4\"\n[[kernel]]\nname = \"s1\"\nserves = [\"/\"]\n[[program]]\nname = \"make\"\ntext = '''\npages 3\ntext 0 \"/src\"\ntext 8 \"/out/a0\"\ntext 16 \"c1\"\ntext 20 \"/out\"\nsys mkdir 20 4\nset r6 0\nset r7 6\nspawn:\nsys fork\njeq r1 r5 child\naddi r6 1\njlt r6 r7 spawn\nreap:\nsys wait\njeq r0 r5 reap\nsys list 20 4 64 8000\nmov r7 r1\nsys open 8 7 1\nsys read 0 64 3\nsys print 64 3\nsys exit r7\nchild:\nset r1 97\nadd r1 r6\nset r2 13\nstb r2 r1\nset r1 4\nmov r2 r6\nmod r2 r1\naddi r2 49\nset r1 17\nstb r1 r2\nsys migrate 16 2\nset r6 48\nset r7 58\nfile:\nset r2 14\nstb r2 r6\nsys open 0 4 1\nsys read 0 64 9000\nsys close 0\nset r3 64\nset r4 9064\nbyte:\nldb r2 r3\naddi r2 1\nstb r3 r2\naddi r3 1\njlt r3 r4 byte\nsys open 8 7 6\nsys write 0 64 9000\nsys close 0\naddi r6 1\njlt r6 r7 file\nsys exit 0\n'''\n[[start]]\nhost = \"c1\"\nprogram = \"make\"\n[[file]]\npath = \"/src\"\ntext = \"abc\"\nrepeat = 3000\n[[link]]\nfrom = \"*\"\nto = \"*\"\nfirst = 7\nevery = 7\ncount = 3\n[[evict]]\nhost = \"c3\"\nafter = 20\n",
        0,
        b"",
    ),
    // migrate with dirty blocks
    (
        b"version = 1\ncache = 32\n[[kernel]]\nname = \"c1\"\n[[kernel]]\nname = \"c2\"\n[[kernel]]\nname = \"c3\"\n[[kernel]]\nname = \"s1\"\nserves = [\"/\"]\n[[program]]\nname = \"p\"\ntext = '''\npages 4\ntext 0 \"/d\"\ntext 8 \"c2\"\nsys open 0 2 6\nsys write 0 0 16384\nsys write 0 0 16384\nsys write 0 0 16384\nsys write 0 0 16384\nsys write 0 0 16384\nsys migrate 8 2\nsys exit 0\n'''\n[[program]]\nname = \"q\"\ntext = '''\ntext 0 \"/d\"\nset r6 81920\nagain:\nsys open 0 2 1\njne r0 r5 again\nmore:\nsys size 0\njne r1 r6 more\nsys read 0 16 2\nsys print 16 2\nsys exit 0\n'''\n[[start]]\nhost = \"c1\"\nprogram = \"p\"\n[[start]]\nhost = \"c3\"\nprogram = \"q\"\n",
        0,
        b"",
    ),
    // missing operands from registers
    (
        b"version = 1\n[[kernel]]\nname = \"c1\"\n[[kernel]]\nname = \"s1\"\nserves = [\"/\"]\n[[program]]\nname = \"p\"\ntext = '''\ntext 0 \"ok\\n\"\nset r2 3\nsys print 0\nset r1 7\nsys exit\n'''\n[[start]]\nhost = \"c1\"\nprogram = \"p\"\n",
        0,
        b"",
    ),
    // nothing to start
    (
        b"version = 1\n[[kernel]]\nname = \"c1\"\n[[kernel]]\nname = \"s1\"\nserves = [\"/\"]\n[[program]]\nname = \"hello\"\ntext = '''\ntext 0 \"hello\\n\"\nsys print 0 6\nsys exit 0\n'''\n",
        0,
        b"",
    ),
    // page fetched after migrate
    (
        b"version = 1\n[[kernel]]\nname = \"c1\"\n[[kernel]]\nname = \"c2\"\n[[kernel]]\nname = \"s1\"\nserves = [\"/\"]\n[[program]]\nname = \"p\"\ntext = '''\npages 8\ntext 0 \"c2\"\ntext 28672 \"z\\n\"\nsys migrate 0 2\nsys print 28672 2\nsys exit 0\n'''\n[[start]]\nhost = \"c1\"\nprogram = \"p\"\n",
        0,
        b"",
    ),
    // processes in pid order
    (
        b"version = 1\n[[kernel]]\nname = \"c1\"\n[[kernel]]\nname = \"c2\"\n[[kernel]]\nname = \"s1\"\nserves = [\"/\"]\n[[program]]\nname = \"p\"\ntext = '''\nsys exit r1\n'''\n[[start]]\nhost = \"c2\"\nprogram = \"p\"\narg = 1\n[[start]]\nhost = \"c1\"\nprogram = \"p\"\narg = 2\n[[start]]\nhost = \"c2\"\nprogram = \"p\"\narg = 3\n",
        0,
        b"",
    ),
    // program text spelling
    (
        b"version = 1\n[[kernel]]\nname = \"c1\"\n[[kernel]]\nname = \"s1\"\nserves = [\"/\"]\n[[program]]\nname = \"hello\"\ntext = '''\n# a comment\n\n   text   0   \"a \\\\ \\\"b\\\"\\n\"  \n start_1: \n  set  r1  18446744073709551615\n  addi r1 1 \n jeq r1 r5 r_end\n jmp start_1\nr_end:\nsys print 0 8\nsys exit r1\n'''\n[[start]]\nhost = \"c1\"\nprogram = \"hello\"\n",
        0,
        b"",
    ),
    // read lengths none short too long
    (
        b"version = 1\n[[kernel]]\nname = \"c1\"\n[[kernel]]\nname = \"s1\"\nserves = [\"/\"]\n[[program]]\nname = \"p\"\ntext = '''\ntext 0 \"/f\"\nsys open 0 2 7\nsys read 0 16 0\nmov r5 r1\nsys read 0 16 8\nadd r5 r1\nsys read 0 16 16385\nadd r5 r0\nsys exit r5\n'''\n[[start]]\nhost = \"c1\"\nprogram = \"p\"\n",
        0,
        b"",
    ),
    // read lengths none short too long nocache
    (
        b"version = 1\ncache = 0\n[[kernel]]\nname = \"c1\"\n[[kernel]]\nname = \"s1\"\nserves = [\"/\"]\n[[program]]\nname = \"p\"\ntext = '''\ntext 0 \"/f\"\nsys open 0 2 7\nsys read 0 16 0\nmov r5 r1\nsys read 0 16 8\nadd r5 r1\nsys read 0 16 16385\nadd r5 r0\nsys exit r5\n'''\n[[start]]\nhost = \"c1\"\nprogram = \"p\"\n",
        0,
        b"",
    ),
    // recall partial last block
    (
        b"version = 1\n[[kernel]]\nname = \"c1\"\n[[kernel]]\nname = \"c2\"\n[[kernel]]\nname = \"s1\"\nserves = [\"/\"]\n[[program]]\nname = \"a\"\ntext = '''\npages 2\ntext 0 \"/data\"\ntext 8 \"/flag\"\ntext 16 \"A\"\ntext 5015 \"Z\"\nsys open 0 5 6\nsys write 0 16 5000\nsys close 0\nsys open 8 5 6\nsys exit 0\n'''\n[[program]]\nname = \"b\"\ntext = '''\npages 2\ntext 0 \"/data\"\ntext 8 \"/flag\"\nagain:\nsys open 8 5 1\njne r0 r5 again\nsys open 0 5 1\nsys read 1 16 5000\nsys print 16 1\nsys print 5015 1\nsys exit 0\n'''\n[[start]]\nhost = \"c1\"\nprogram = \"a\"\n[[start]]\nhost = \"c2\"\nprogram = \"b\"\n",
        0,
        b"",
    ),
    // recall partial last block nocache
    (
        b"version = 1\ncache = 0\n[[kernel]]\nname = \"c1\"\n[[kernel]]\nname = \"c2\"\n[[kernel]]\nname = \"s1\"\nserves = [\"/\"]\n[[program]]\nname = \"a\"\ntext = '''\npages 2\ntext 0 \"/data\"\ntext 8 \"/flag\"\ntext 16 \"A\"\ntext 5015 \"Z\"\nsys open 0 5 6\nsys write 0 16 5000\nsys close 0\nsys open 8 5 6\nsys exit 0\n'''\n[[program]]\nname = \"b\"\ntext = '''\npages 2\ntext 0 \"/data\"\ntext 8 \"/flag\"\nagain:\nsys open 8 5 1\njne r0 r5 again\nsys open 0 5 1\nsys read 1 16 5000\nsys print 16 1\nsys print 5015 1\nsys exit 0\n'''\n[[start]]\nhost = \"c1\"\nprogram = \"a\"\n[[start]]\nhost = \"c2\"\nprogram = \"b\"\n",
        0,
        b"",
    ),
    // rexec bad host
    (
        b"version = 2\n[[kernel]]\nname = \"c1\"\n[[kernel]]\nname = \"c2\"\n[[kernel]]\nname = \"s1\"\nserves = [\"/\"]\n[[program]]\nname = \"a\"\ntext = '''\ntext 0 \"b\"\ntext 8 \"c2\"\nsys rexec 0 1 0 1\nsys exit r0\n'''\n[[program]]\nname = \"b\"\ntext = '''\ntext 0 \"b\\n\"\nsys print 0 2\nsys exit 0\n'''\n[[start]]\nhost = \"c1\"\nprogram = \"a\"\n",
        0,
        b"",
    ),
    // rexec on another client
    (
        b"version = 2\n[[kernel]]\nname = \"c1\"\n[[kernel]]\nname = \"c2\"\n[[kernel]]\nname = \"s1\"\nserves = [\"/\"]\n[[program]]\nname = \"a\"\ntext = '''\ntext 0 \"b\"\ntext 8 \"c2\"\nsys rexec 0 1 8 2\nsys exit 9\n'''\n[[program]]\nname = \"b\"\ntext = '''\ntext 0 \"b\\n\"\nsys print 0 2\nsys exit 0\n'''\n[[start]]\nhost = \"c1\"\nprogram = \"a\"\n",
        0,
        b"",
    ),
    // second read from cache
    (
        b"version = 1\n[[kernel]]\nname = \"c1\"\n[[kernel]]\nname = \"s1\"\nserves = [\"/\"]\n[[program]]\nname = \"p\"\ntext = '''\npages 3\ntext 0 \"/src\"\nsys open 0 4 1\nsys read 0 64 9000\nsys seek 0 0\nsys read 0 64 9000\nsys exit 0\n'''\n[[start]]\nhost = \"c1\"\nprogram = \"p\"\n[[file]]\npath = \"/src\"\ntext = \"abc\"\nrepeat = 3000\n",
        0,
        b"",
    ),
    // shared offset after migrate
    (
        b"version = 1\n[[kernel]]\nname = \"c1\"\n[[kernel]]\nname = \"c2\"\n[[kernel]]\nname = \"s1\"\nserves = [\"/\"]\n[[program]]\nname = \"log\"\ntext = '''\ntext 0 \"/log\"\ntext 8 \"c2\"\ntext 16 \"c\\n\"\ntext 18 \"p\\n\"\nsys open 0 4 7\nsys fork\njne r1 r5 parent\nsys migrate 8 2\nsys write 0 16 2\nsys write 0 16 2\nsys write 0 16 2\nsys exit 0\nparent:\nsys wait\nsys write 0 18 2\nsys write 0 18 2\nsys write 0 18 2\nsys seek 0 0\nsys read 0 32 12\nsys print 32 12\nsys exit 0\n'''\n[[start]]\nhost = \"c1\"\nprogram = \"log\"\n",
        0,
        b"",
    ),
    // shared offset evicted after 1
    (
        b"version = 1\n[[kernel]]\nname = \"c1\"\n[[kernel]]\nname = \"c2\"\n[[kernel]]\nname = \"s1\"\nserves = [\"/\"]\n[[program]]\nname = \"log\"\ntext = '''\ntext 0 \"/log\"\ntext 8 \"c2\"\ntext 16 \"c\\n\"\ntext 18 \"p\\n\"\nsys open 0 4 7\nsys fork\njne r1 r5 parent\nsys migrate 8 2\nsys write 0 16 2\nsys write 0 16 2\nsys write 0 16 2\nsys exit 0\nparent:\nsys wait\nsys write 0 18 2\nsys write 0 18 2\nsys write 0 18 2\nsys seek 0 0\nsys read 0 32 12\nsys print 32 12\nsys exit 0\n'''\n[[start]]\nhost = \"c1\"\nprogram = \"log\"\n[[evict]]\nhost = \"c2\"\nafter = 1\n",
        0,
        b"",
    ),
    // shared offset evicted after 2
    (
        b"version = 1\n[[kernel]]\nname = \"c1\"\n[[kernel]]\nname = \"c2\"\n[[kernel]]\nname = \"s1\"\nserves = [\"/\"]\n[[program]]\nname = \"log\"\ntext = '''\ntext 0 \"/log\"\ntext 8 \"c2\"\ntext 16 \"c\\n\"\ntext 18 \"p\\n\"\nsys open 0 4 7\nsys fork\njne r1 r5 parent\nsys migrate 8 2\nsys write 0 16 2\nsys write 0 16 2\nsys write 0 16 2\nsys exit 0\nparent:\nsys wait\nsys write 0 18 2\nsys write 0 18 2\nsys write 0 18 2\nsys seek 0 0\nsys read 0 32 12\nsys print 32 12\nsys exit 0\n'''\n[[start]]\nhost = \"c1\"\nprogram = \"log\"\n[[evict]]\nhost = \"c2\"\nafter = 2\n",
        0,
        b"",
    ),
    // shared offset evicted after 3
    (
        b"version = 1\n[[kernel]]\nname = \"c1\"\n[[kernel]]\nname = \"c2\"\n[[kernel]]\nname = \"s1\"\nserves = [\"/\"]\n[[program]]\nname = \"log\"\ntext = '''\ntext 0 \"/log\"\ntext 8 \"c2\"\ntext 16 \"c\\n\"\ntext 18 \"p\\n\"\nsys open 0 4 7\nsys fork\njne r1 r5 parent\nsys migrate 8 2\nsys write 0 16 2\nsys write 0 16 2\nsys write 0 16 2\nsys exit 0\nparent:\nsys wait\nsys write 0 18 2\nsys write 0 18 2\nsys write 0 18 2\nsys seek 0 0\nsys read 0 32 12\nsys print 32 12\nsys exit 0\n'''\n[[start]]\nhost = \"c1\"\nprogram = \"log\"\n[[evict]]\nhost = \"c2\"\nafter = 3\n",
        0,
        b"",
    ),
    // shared offset evicted after 4
    (
        b"version = 1\n[[kernel]]\nname = \"c1\"\n[[kernel]]\nname = \"c2\"\n[[kernel]]\nname = \"s1\"\nserves = [\"/\"]\n[[program]]\nname = \"log\"\ntext = '''\ntext 0 \"/log\"\ntext 8 \"c2\"\ntext 16 \"c\\n\"\ntext 18 \"p\\n\"\nsys open 0 4 7\nsys fork\njne r1 r5 parent\nsys migrate 8 2\nsys write 0 16 2\nsys write 0 16 2\nsys write 0 16 2\nsys exit 0\nparent:\nsys wait\nsys write 0 18 2\nsys write 0 18 2\nsys write 0 18 2\nsys seek 0 0\nsys read 0 32 12\nsys print 32 12\nsys exit 0\n'''\n[[start]]\nhost = \"c1\"\nprogram = \"log\"\n[[evict]]\nhost = \"c2\"\nafter = 4\n",
        0,
        b"",
    ),
    // shared offset on one kernel
    (
        b"version = 1\n[[kernel]]\nname = \"c1\"\n[[kernel]]\nname = \"c2\"\n[[kernel]]\nname = \"s1\"\nserves = [\"/\"]\n[[program]]\nname = \"log\"\ntext = '''\ntext 0 \"/log\"\ntext 8 \"c2\"\ntext 16 \"c\\n\"\ntext 18 \"p\\n\"\nsys open 0 4 7\nsys fork\njne r1 r5 parent\nsys write 0 16 2\nsys write 0 16 2\nsys write 0 16 2\nsys exit 0\nparent:\nsys wait\nsys write 0 18 2\nsys write 0 18 2\nsys write 0 18 2\nsys seek 0 0\nsys read 0 32 12\nsys print 32 12\nsys exit 0\n'''\n[[start]]\nhost = \"c1\"\nprogram = \"log\"\n",
        0,
        b"",
    ),
    // start argument
    (
        b"version = 1\n[[kernel]]\nname = \"c1\"\n[[kernel]]\nname = \"s1\"\nserves = [\"/\"]\n[[program]]\nname = \"p\"\ntext = '''\nsys exit r1\n'''\n[[start]]\nhost = \"c1\"\nprogram = \"p\"\narg = 300\n",
        0,
        b"",
    ),
    // store word lowest byte first
    (
        b"version = 1\n[[kernel]]\nname = \"c1\"\n[[kernel]]\nname = \"s1\"\nserves = [\"/\"]\n[[program]]\nname = \"p\"\ntext = '''\nset r1 72623859790382856\nset r2 16\nstw r2 r1\nldb r3 r2\nsys exit r3\n'''\n[[start]]\nhost = \"c1\"\nprogram = \"p\"\n",
        0,
        b"",
    ),
    // version 2 hello
    (
        b"version = 2\n[[kernel]]\nname = \"c1\"\n[[kernel]]\nname = \"s1\"\nserves = [\"/\"]\n[[program]]\nname = \"hello\"\ntext = '''\ntext 0 \"hello\\n\"\nsys print 0 6\nsys exit 0\n'''\n[[start]]\nhost = \"c1\"\nprogram = \"hello\"\n",
        0,
        b"",
    ),
    // version 2 joined boot file
    (
        b"version = 2\n[[kernel]]\nname = \"c1\"\n[[kernel]]\nname = \"s1\"\nserves = [\"/\"]\n[[program]]\nname = \"p\"\ntext = '''\ntext 0 \"/f\"\nsys open 0 2 1\nsys read 0 16 9\nsys print 16 4\nsys exit 0\n'''\n[[start]]\nhost = \"c1\"\nprogram = \"p\"\n[[file]]\npath = \"/f\"\ntext = \"ab\"\n[[file]]\npath = \"/f\"\ntext = \"cd\"\nappend = true\n",
        0,
        b"",
    ),
    // version 2 write past file limit
    (
        b"version = 2\n[[kernel]]\nname = \"c1\"\n[[kernel]]\nname = \"s1\"\nserves = [\"/\"]\n[[program]]\nname = \"p\"\ntext = '''\ntext 0 \"/f\"\ntext 8 \"xy\"\nsys open 0 2 7\nsys seek 0 4194303\nsys write 0 8 1\nsys seek 0 4194303\nsys write 0 8 2\nmov r6 r0\nsys seek 0 0\nsys read 0 16 4\nsys print 16 4\nsys exit r6\n'''\n[[start]]\nhost = \"c1\"\nprogram = \"p\"\n",
        0,
        b"",
    ),
    // version 2 write past old limit
    (
        b"version = 2\n[[kernel]]\nname = \"c1\"\n[[kernel]]\nname = \"s1\"\nserves = [\"/\"]\n[[program]]\nname = \"p\"\ntext = '''\ntext 0 \"/f\"\ntext 8 \"xy\"\nsys open 0 2 7\nsys seek 0 262143\nsys write 0 8 1\nsys seek 0 262143\nsys write 0 8 2\nmov r6 r0\nsys seek 0 0\nsys read 0 16 4\nsys print 16 4\nsys exit r6\n'''\n[[start]]\nhost = \"c1\"\nprogram = \"p\"\n",
        0,
        b"",
    ),
    // write past file limit
    (
        b"version = 1\n[[kernel]]\nname = \"c1\"\n[[kernel]]\nname = \"s1\"\nserves = [\"/\"]\n[[program]]\nname = \"p\"\ntext = '''\ntext 0 \"/f\"\ntext 8 \"xy\"\nsys open 0 2 7\nsys seek 0 262143\nsys write 0 8 1\nsys seek 0 262143\nsys write 0 8 2\nmov r6 r0\nsys seek 0 0\nsys read 0 16 4\nsys print 16 4\nsys exit r6\n'''\n[[start]]\nhost = \"c1\"\nprogram = \"p\"\n",
        0,
        b"",
    ),
    // write past file limit nocache
    (
        b"version = 1\ncache = 0\n[[kernel]]\nname = \"c1\"\n[[kernel]]\nname = \"s1\"\nserves = [\"/\"]\n[[program]]\nname = \"p\"\ntext = '''\ntext 0 \"/f\"\ntext 8 \"xy\"\nsys open 0 2 7\nsys seek 0 262143\nsys write 0 8 1\nsys seek 0 262143\nsys write 0 8 2\nmov r6 r0\nsys seek 0 0\nsys read 0 16 4\nsys print 16 4\nsys exit r6\n'''\n[[start]]\nhost = \"c1\"\nprogram = \"p\"\n",
        0,
        b"",
    ),
    // write sharing two clients
    (
        b"version = 1\n[[kernel]]\nname = \"c1\"\n[[kernel]]\nname = \"c2\"\n[[kernel]]\nname = \"s1\"\nserves = [\"/\"]\n[[program]]\nname = \"w\"\ntext = '''\ntext 0 \"/x\"\ntext 8 \"a\"\nsys open 0 2 7\nsys write 0 8 1\npoll:\nsys seek 0 1\nsys read 0 16 1\njeq r1 r5 poll\nsys print 16 1\nsys exit 0\n'''\n[[program]]\nname = \"r\"\ntext = '''\ntext 0 \"/x\"\ntext 8 \"b\"\nsys open 0 2 7\npoll:\nsys seek 0 0\nsys read 0 16 1\njeq r1 r5 poll\nsys print 16 1\nsys write 0 8 1\nsys exit 0\n'''\n[[start]]\nhost = \"c1\"\nprogram = \"w\"\n[[start]]\nhost = \"c2\"\nprogram = \"r\"\n",
        0,
        b"",
    ),
    // write sharing two clients nocache
    (
        b"version = 1\ncache = 0\n[[kernel]]\nname = \"c1\"\n[[kernel]]\nname = \"c2\"\n[[kernel]]\nname = \"s1\"\nserves = [\"/\"]\n[[program]]\nname = \"w\"\ntext = '''\ntext 0 \"/x\"\ntext 8 \"a\"\nsys open 0 2 7\nsys write 0 8 1\npoll:\nsys seek 0 1\nsys read 0 16 1\njeq r1 r5 poll\nsys print 16 1\nsys exit 0\n'''\n[[program]]\nname = \"r\"\ntext = '''\ntext 0 \"/x\"\ntext 8 \"b\"\nsys open 0 2 7\npoll:\nsys seek 0 0\nsys read 0 16 1\njeq r1 r5 poll\nsys print 16 1\nsys write 0 8 1\nsys exit 0\n'''\n[[start]]\nhost = \"c1\"\nprogram = \"w\"\n[[start]]\nhost = \"c2\"\nprogram = \"r\"\n",
        0,
        b"",
    ),
];
