//! Streams, store texts and what commands print, by the names that the scripts of the examples give them. The names of objects are
//! those that git gives them.

mod stores;

use gx_text::cut;
use stores::STORES;

/// The text with this name; nothing for a name that none has.
pub(crate) fn text(name: &str) -> &'static [u8] {
    match text_among(STREAMS, name) {
        Some(text) => text,
        None => text_among(STORES, name).unwrap_or(b""),
    }
}

fn text_among(texts: &'static [u8], name: &str) -> Option<&'static [u8]> {
    for part in texts.split(|byte| *byte == b'%') {
        if let Some((title, text)) = cut(part, b'\n') {
            if title == name.as_bytes() {
                return Some(text);
            }
        }
    }
    None
}

/// Streams and what comes of them, each text in the lines behind its name, up to the next `%`.
const STREAMS: &[u8] = b"
%root
commit refs/heads/main
mark :1
committer A <a@x> 1 +0000
data 2
v1
M 100644 inline test.txt
data 10
version 1
%tagged
commit refs/heads/main
mark :1
committer A <a@x> 1 +0000
data 2
v1
M 100644 inline test.txt
data 10
version 1

tag v1
from :1
data 3
one
reset refs/tags/v1
from :1
%three blobs
blob
mark :1
data 13
test content

blob
data 0
blob
original-oid x
data 16
what is up, doc?%three names
d670460b4b4aece5915caf5c68d12f560a9fe3e4
e69de29bb2d1d6434b8b29ae775ad8c2e48c5391
bd9dbf5aae1a3862dd1526723246b20206e5fc37
%version
progress x
commit refs/heads/main
mark :1
committer A <a@x> 1 +0000
data 2
v1
M 100644 inline test.txt
data 10
version 1

tag v1
from :1
tagger A <a@x> 2 +0000
data 3
one%commit of version
progress x
tree d8329fc1cc938780ffdd9f94e0d364e0ea74f579
author A <a@x> 1 +0000
committer A <a@x> 1 +0000

v1%wide
commit refs/heads/main
committer A <a@x> 1 +0000
data 0
M 100755 inline a.b
data 6
hello
M 100644 inline a/test.txt
data 10
version 1
M 120000 inline a0
data 6
hello
M 160000 d670460b4b4aece5915caf5c68d12f560a9fe3e4 sub
M 100644 inline \"a b\\\"\\303\\251\"
data 6
hello
%lines of wide
100644 blob ce013625030ba8dba906f756967f9e9ca394464a\t\"a b\\\"\\303\\251\"
100755 blob ce013625030ba8dba906f756967f9e9ca394464a\ta.b
040000 tree d8329fc1cc938780ffdd9f94e0d364e0ea74f579\ta
120000 blob ce013625030ba8dba906f756967f9e9ca394464a\ta0
160000 commit d670460b4b4aece5915caf5c68d12f560a9fe3e4\tsub
%rough
feature export-marks=m
blob
mark :1
data 1
x
commit refs/heads/m
mark :2
committer <a@b> 1 +0000
data 1
m
M 100644 :1 \"a

reset refs/heads/gone
from 0000000000000000000000000000000000000000

%mended
blob
mark :1
data 1
x
commit refs/heads/m
mark :2
committer  <a@b> 1 +0000
data 1
m
M 100644 :1 \"\\\"a\"

reset refs/heads/gone

%rough lines
feature export-marks=m
blob
mark :1
data 19
author <a> 1 +0000
commit refs/heads/a
author <a> -1 +0000
committer A <a> 1 +0000
data 2
\"a
M 100644 :1 \"a

reset refs/heads/b
from 0000000000000000000000000000000000000000

%mended lines
blob
mark :1
data 19
author <a> 1 +0000

commit refs/heads/a
author  <a> -1 +0000
committer A <a> 1 +0000
data 2
\"a
M 100644 :1 \"\\\"a\"

reset refs/heads/b

%two branches
commit refs/heads/a
mark :1
committer A <a@x> 1 +0000
data 1
p
M 100644 inline f
data 6
hello

commit refs/heads/b
mark :2
committer A <a@x> 2 +0000
data 1
q
M 160000 d670460b4b4aece5915caf5c68d12f560a9fe3e4 sub
commit refs/heads/a
mark :3
committer A <a@x> 3 +0000
data 1
m
merge :2
tag t
from :3
tagger A <a@x> 4 +0000
data 1
t
%export of two branches
feature done
blob
mark :1
data 6
hello

reset refs/gx/export
commit refs/gx/export
mark :2
author A <a@x> 1 +0000
committer A <a@x> 1 +0000
data 1
p
deleteall
M 100644 :1 f

reset refs/gx/export
commit refs/gx/export
mark :3
author A <a@x> 2 +0000
committer A <a@x> 2 +0000
data 1
q
deleteall
M 160000 d670460b4b4aece5915caf5c68d12f560a9fe3e4 sub

commit refs/gx/export
mark :4
author A <a@x> 3 +0000
committer A <a@x> 3 +0000
data 1
m
from :2
merge :3
deleteall
M 100644 :1 f

reset refs/gx/export
reset refs/heads/a
from :4

reset refs/heads/b
from :3

tag t
from :4
tagger A <a@x> 4 +0000
data 1
t
done
%changes of two branches
feature done
blob
mark :1
data 6
hello

reset refs/heads/a
commit refs/heads/a
mark :2
author A <a@x> 1 +0000
committer A <a@x> 1 +0000
data 1
p
M 100644 :1 f

reset refs/heads/a
commit refs/heads/a
mark :3
author A <a@x> 2 +0000
committer A <a@x> 2 +0000
data 1
q
M 160000 d670460b4b4aece5915caf5c68d12f560a9fe3e4 sub

commit refs/heads/a
mark :4
author A <a@x> 3 +0000
committer A <a@x> 3 +0000
data 1
m
from :2
merge :3

reset refs/heads/a
from :4

reset refs/heads/b
from :3

tag t
from :4
tagger A <a@x> 4 +0000
data 1
t
done
";
