//! A walk through the files' side of a client's kernel, for any fact of it: what each fact must bear, so that the side keeps it.
#![tactic(auto)]
