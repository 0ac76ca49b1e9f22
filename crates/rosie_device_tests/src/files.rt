// The files of every run, in memory.
use rosie_io::{Bytes, NoMemory, Tree, TreeFile};
use std::alloc::Global;

/// The code file of the pattern `"a"`: one set of one range, one text, and the code `open 0`,
/// `set 0`, `close`, `finish`.
pub(crate) const CODE: &[u8] = b"\
RPLCODE1\0\0\0\x01\0\0\0\x01\0\0\0a\0\0\0a\0\0\0\x01\0\0\0\0\0\0\0\x01*\
\0\0\0\x04\x0d\0\0\0\0\x01\0\0\0\0\x0e\x10";

/// Three tests: one passes, one fails, and one needs a step for each of its 40 characters.
const TESTS: &[u8] = b"\
q = \"a\"
p = {{q \"x\"} / \"ab\"}
r = \"a\"*
-- test p accepts \"ab\"
-- test p includes q \"ab\"
-- test r accepts \"aaaaaaaaaaaaaaaaaaaaaaaaaaaaaaaaaaaaaaaa\"
";

/// The files, each with its path.
const FILES: [(&[u8], &[u8]); 9] = [
    (b"f", b"ab1\nx\n"),
    (b"g", b"\xff\nab4"),
    (b"h", b"ac\n"),
    (b"lib/p.rpl", b"package p ab = \"ab\""),
    (b"nest.rpl", b"grammar p = {\"(\" p* \")\"} end"),
    (b"r.rpl", b"alias d = [:digit:] n = d+"),
    (b"t.rpl", TESTS),
    (b"x.code", CODE),
    (b"x.rpl", b"x = \"a\""),
];

fn put(alloc: Global, tree: &mut Tree, path: &[u8], bytes: &[u8]) -> Result<(), NoMemory> {
    let path = Bytes::from_slice(alloc, path)?;
    let bytes = Bytes::from_slice(alloc, bytes)?;
    tree.push(TreeFile { path, bytes })
}

/// Returns all of the files.
pub(crate) fn tree(alloc: Global) -> Result<Tree, NoMemory> {
    let mut tree = Tree::new(alloc);
    for (path, bytes) in FILES {
        put(alloc, &mut tree, path, bytes)?;
    }
    Ok(tree)
}
