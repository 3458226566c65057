ghost use Rattle.file_views.specs.AskingLaw.{AskingStay};
ghost use Rattle.file_views.specs.BytesLaw.{BytesStay};
ghost use Rattle.file_views.specs.ContentLaw.{ContentsStay};
ghost use Rattle.file_views.specs.DecisionLaw.{DecisionsStay};
ghost use Rattle.file_views.specs.HolderLaw.{HoldersStay};
ghost use Rattle.file_views.specs.LayerLaw.{CoherenceStays, LayersStay, PartsStay};
ghost use Rattle.file_views.specs.LimitLaw.{LimitsStay};
ghost use Rattle.file_views.specs.ModeLaw.{ModesStay};
ghost use Rattle.file_views.specs.ShapeLaw.{ShapesStay};
ghost use Rattle.file_views.specs.SizeLaw.{SizesStay};
ghost use Rattle.file_views.specs.SoundLaw.{SoundStays};
ghost use Rattle.file_views.specs.StampLaw.{StampsStay};
ghost use Rattle.file_views.specs.StreamLaw.{StreamsStay};
ghost use Rattle.file_views.specs.WritingLaw.{WritingBacksStay};

/// A law: in a new file and after any steps and moves of clients, each call has its request's kind of reply and goes between a
/// client and the server, the numbers of calls, of a client's blocks and of dirty blocks tell them apart, and what waits at a
/// client are readings, writings and appends.
pub fn shapes_stay()
    ensures { ShapesStay }
{}

/// A law: in a new file and after any steps and moves of clients, the server counts for each stream and kernel exactly the grants
/// that are installed there or on their way to or from it, a stream has one mode, an open that waits is of a stream that nothing
/// else names, and what is done with a stream is done where it is installed, and is open for that.
pub fn streams_stay()
    ensures { StreamsStay }
{}

/// A law: in a new file and after any steps and moves of clients, no stamp of a client, or on its way to it, is over the current one
/// that the server gave it; those of grants and callbacks on their way differ; a request's stamp isn't over its client's, and one
/// that is told to begin again was older than the current one; a client has one callback at most, which has its current stamp, and
/// a recall is the only one. (A file that nobody has open is uncached by itself only while no callback is out.)
pub fn stamps_stay()
    ensures { StampsStay }
{}

/// A law: in a new file and after any steps and moves of clients, an open or a move waits first of all at the server while a
/// callback is out, and nothing waits while none is; the file is uncached where that open or move makes it so, and blocks aren't
/// recalled from its receiver unless it truncates; a shared stream is open, and its file uncached; while the file is uncached no
/// client was given On last, and while it isn't each client that has it open was.
pub fn decisions_stay()
    ensures { DecisionsStay }
{}

/// A law: in a new file and after any steps and moves of clients, a client's stamp is its current one, or a grant or a callback with
/// that one is on its way to it; the grant given last tells the mode given last where its stamp is the current one, and is the
/// newest on its way; what a client is told to begin again with is a grant that is on its way, or not newer; a client that uses its
/// cache, or will by a newer grant, was given On last or is being stopped; and a newer grant Off comes only while the file is
/// uncached, to a client that doesn't use its cache and won't.
pub fn modes_stay()
    ensures { ModesStay }
{}

/// A law: in a new file and after any steps and moves of clients, while there is a holder no other kernel has the file open, and each
/// other client that uses its cache is at an older version; who has it open for writing and uses its cache, or will, is the holder;
/// the holder may write, or will by the grant that made it the holder, or has answered its callback; who has a dirty block may
/// write; newer grants follow each other by version, from at least the client's to the server's; and with equal stamps the modes
/// agree.
pub fn holders_stay()
    ensures { HoldersStay }
{}

/// A law: after any list of steps and of moves of clients, from a new file with one to fifteen clients on, the first six layers of
/// soundness and the seventh's facts on fetches, operations, write-backs and sizes hold together; and where the new file isn't longer than
/// a file may be, what the layer says of that limit; and where a block has at least one byte, the eighth, of what blocks contain,
/// with the bytes that the view presents: an answer to a callback that has blocks, or else the holder's dirty blocks, over the server's
/// bytes, or else the server's bytes; no others are those that it stands for,
/// and an operation that the server takes up finds them there. (No step and no move has a premise beyond its being possible.)
pub fn layers_stay()
    ensures { LayersStay }
{}

/// A law: after any list of steps and of moves of clients, from a new file with one to fifteen clients on, six of the seven parts of
/// coherence hold. While the holder has dirty blocks that count, no other client with a stream uses its cache. A client's stamp is
/// at most its current one, and less only while that is on its way to it, and with equal stamps the modes agree. While the file is
/// uncached and no callback is out, nobody is trusted with cached blocks. While callbacks are out, what asked waits, first of all, and
/// whatever comes, no operation enters at the server while one of them stays out, and no open is granted.
/// And with the bytes that the view stands for, the blocks of who is trusted once what is due has come, and of who uses its cache and has
/// a stream, are their parts, and the latter's size is theirs; and what is on its way is right: a fetch with the current stamp has, or will have, its part
/// of them, a write-back carries its block and once it is done the server has it, and what is older changes nothing.
pub fn parts_stay()
    ensures { PartsStay }
{}

/// A law: after any list of steps and of moves of clients, from a new file with one to fifteen clients on, where a block has at least
/// one byte, the view is coherent with the bytes that it presents, in all seven parts; so the view in which nothing is on its way
/// any more has them too: the holder's dirty blocks over the server's bytes, at its size where it has any, or else the server's
/// bytes.
pub fn coherence_stays()
    ensures { CoherenceStays }
{}

/// A law: from a new file with one to fifteen clients on, where a block has at least one byte, each step and each move of a client
/// changes the bytes that the view stands for by exactly what enters in it: a writing's bytes at its place, an append's at the end
/// where they fit, a truncation to nothing, and nothing else. Each reading that enters has the bytes of its moment, and an append is
/// refused exactly where it would pass the most that a file may have. So after any list of them the bytes are the first ones as all
/// that entered changed them, and the view is coherent with these before and after each.
pub fn bytes_stay()
    ensures { BytesStay }
{}

/// A law over any sound view, reached or not, where a block has at least one byte: it is coherent with the bytes that it stands for;
/// each step and each move of a client leads to a sound view, whose bytes are the old ones changed by what enters; all that
/// enters is right, and nothing enters at the server while a callback that is out stays out. So it is for steps in a row, whose bytes
/// are the first ones as all that entered changed them. A new file with one to fifteen clients that isn't longer than a file may be
/// is sound, and stands for its bytes.
pub fn sound_stays()
    ensures { SoundStays }
{}

/// A law: in a new file and after any steps and moves of clients, a client that doesn't use its cache has no block; it has one unfinished
/// fetch at most, and then something waits; a fetch with its own stamp is of an absent block before its end, while it uses its cache;
/// and with an unfinished operation of its own stamp it doesn't use it. (This is the first part of the seventh layer.)
pub fn asking_stays()
    ensures { AskingStay }
{}

/// A law: in a new file and after any steps and moves of clients, a client has one unfinished write-back of a block with its own
/// stamp at most, and a dirty block begins before its size. A write-back with the current stamp and the block's present number
/// carries what of the block stood before the size that it carries; while it isn't served its block is held dirty, its bytes stand
/// before its size, and that is at most the client's; that of the last block carries the client's size. (This is the second part of
/// the seventh layer.)
pub fn write_backs_stay()
    ensures { WritingBacksStay }
{}

/// A law: in a new file and after any steps and moves of clients, a newer grant On, and what a client is told to begin again with, has
/// the size of the server's bytes; the size of a client that may write is at least theirs, and where it is more its last block is
/// dirty; once the write-back of the last block is done the server has the client's size; and an answer to a callback that has blocks
/// is the holder's, its size is at least the server's, and its blocks stand before it. (This is the third part of the seventh layer.)
pub fn sizes_stay()
    ensures { SizesStay }
{}

/// A law: in a new file that isn't longer than a file may be, and after any steps and moves of clients, no size, no block that is held, no
/// end of a write and no end of a block on its way passes the most that a file may have. (This is the last part of the seventh layer.)
pub fn limits_stay()
    ensures { LimitsStay }
{}

/// A law: in a new file and after any steps and moves of clients, where a block has at least one byte, there are bytes that the view
/// stands for. Who has a dirty block, and an answer to a callback that has blocks, has their size, and that answer's blocks are theirs;
/// each other block is the server's. Who uses its cache and has a stream to work with has their size and their blocks, and so has a
/// block that comes with the client's stamp, and a client whose blocks newer grants keep. What a write-back carries is the whole block,
/// which the server has once it is stored. (This is the eighth layer of soundness.)
pub fn contents_stay()
    ensures { ContentsStay }
{}
