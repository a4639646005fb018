//! Texts of stores, what makes them, and what commands print of them.

/// Texts, each in the lines behind its name, up to the next `%`.
pub(super) const STORES: &[u8] = b"
%empty
gxstore 2
objects 0
refs 0
end
%first
gxstore 2
objects 3
blob 10 83baae61804e65cc73a7201a7252750c76066a30
version 1

tree 36 d8329fc1cc938780ffdd9f94e0d364e0ea74f579
100644 test.txt\0\x83\xba\xaea\x80Ne\xccs\xa7 \x1arRu\x0cv\x06j0
commit 98 02d6adf1689e06135d2b4b4d471f1ae489887b53
tree d8329fc1cc938780ffdd9f94e0d364e0ea74f579
author A <a@x> 1 +0000
committer A <a@x> 1 +0000

v1
refs 1
02d6adf1689e06135d2b4b4d471f1ae489887b53 refs/heads/main
end
%ref of first
02d6adf1689e06135d2b4b4d471f1ae489887b53 refs/heads/main
%modes
blob
data 4
lost
commit refs/heads/lost
committer A <a@x> 1 +0000
data 0
commit refs/heads/main
mark :1
author A <a@x> 1 +0000
committer B <b@x> 2 +0000
encoding x
data 0
M 755 inline d/e
data 1
v
M 120000 inline d0
data 1
w
M 644 inline d.t
data 1
v
M 644 inline \"\\303\\244\"
data 1
v
reset refs/heads/lost
%export of modes
feature done
blob
mark :1
data 1
v
blob
mark :2
data 1
w
reset refs/gx/export
commit refs/gx/export
mark :3
author A <a@x> 1 +0000
committer B <b@x> 2 +0000
encoding x
data 0

deleteall
M 100644 :1 d.t
M 100755 :1 d/e
M 120000 :2 d0
M 100644 :1 \"\\303\\244\"

reset refs/gx/export
reset refs/heads/main
from :3

done
%refs of version
02d6adf1689e06135d2b4b4d471f1ae489887b53 refs/heads/main
97d8375ddbc6d68ebd1cd704d215a6ca988cdf29 refs/tags/v1
";
