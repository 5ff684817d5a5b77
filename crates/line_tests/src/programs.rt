//! Runs of both programs with arguments and devices: the status, and the text on each stream.

use super::devices::{EVEN, FAILING, Input, Manner, Output};
use line_io::request::print_line;
use refusing_allocator::RefusingAllocator;
use std::alloc::Global;
use std::env::Args;
use std::fmt;
use std::io::{self, ErrorKind};
use std::process::Abort;
use test_support::texts::{four_fields, with_hashes};
use xet_merkle::merkle_hash_subtree::MerkleHashSubtree;
use xetrange_text::program::HELP as XETRANGE_HELP;
use xetroot_text::program::HELP as XETROOT_HELP;

// Each row has the words of a command, what fails in the run, standard input, the status, standard output and standard
// error. `;` stands for a newline.
const RUNS: &str =
    r#"xetroot|nothing|h1 100|0|xorb h1;file 8e16257caa3fe079d484d872a8975264b2ff683b0d6db9028cc7c0f968a45661;|
xetroot|nothing|zz|1||xetroot: fault 1 at line 1;
xetroot|nothing|h1 18446744073709551615;h2 1|2||xetroot: fault 2 at line 2;
xetroot|memory|h1 100|3||xetroot: fault 3;
xetroot|list of arguments|h1 100|3||xetroot: fault 3;
xetroot|input|h1 100|4||xetroot: fault 4;
xetroot|output|h1 100|5||xetroot: fault 5;
xetroot|nothing|h1 100;@0;h2 200|6||xetroot: fault 6 at line 3;
xetroot|nothing|@1;h1 100|7||xetroot: fault 7;
xetroot|errors|zz|1||
xetroot root|nothing|h1 100|64||xetroot: expected no argument, --help or --version;
xetroot |nothing|h1 100|64||xetroot: expected no argument, --help or --version;
xetroot --help --help|nothing|h1 100|64||xetroot: expected no argument, --help or --version;
xetroot|text of arguments|h1 100|64||xetroot: expected no argument, --help or --version;
xetroot --version|nothing|zz|0|xetroot 1.1.0 (hashes of xet-core-structures 1.5.2);|
xetroot --version|output|zz|5||xetroot: fault 5;
xetrange make|nothing|h1 100|0|{"at_end":false,"at_start":false,"levels":[[1,0]],"nodes":[{"hash":"h1","size":100}]};|
xetrange join|nothing||0|{"at_end":false,"at_start":false,"levels":[[0,0]],"nodes":[]};|
xetrange root|nothing|{"at_end":false,"at_start":false,"levels":[[1,0]],"nodes":[{"hash":"h1","size":100}]}|0|xorb h1;file 8e16257caa3fe079d484d872a8975264b2ff683b0d6db9028cc7c0f968a45661;|
xetrange make|nothing|@0|1||xetrange: fault 1 at line 1;
xetrange make|nothing|h1 18446744073709551615;h2 1|2||xetrange: fault 2 at line 2;
xetrange make|memory|h1 100|3||xetrange: fault 3;
xetrange join|memory|{}|3||xetrange: fault 3;
xetrange root|list of arguments||3||xetrange: fault 3;
xetrange make|input|h1 100|4||xetrange: fault 4;
xetrange join|input||4||xetrange: fault 4;
xetrange root|input||4||xetrange: fault 4;
xetrange make|output|h1 100|5||xetrange: fault 5;
xetrange join|output||5||xetrange: fault 5;
xetrange root|output||5||xetrange: fault 5;
xetrange prove 1 2|nothing|h1 100;h2 200;h3 300|0|{"chunks":[{"hash":"h2","size":200}],"levels":[{"left":[{"hash":"h1","size":100}],"right":[{"hash":"h3","size":300}]}]};|
xetrange prove 0 3|nothing|h1 100;--;h2 200;h3 300;|0|{"chunks":[{"hash":"h1","size":100},{"hash":"h2","size":200},{"hash":"h3","size":300}],"levels":[{"left":[],"right":[]}]};|
xetrange prove 0 1|nothing|h1 100|0|{"chunks":[{"hash":"h1","size":100}],"levels":[]};|
xetrange prove 3 4|nothing|0000000000000000000000000000000000000000000000000000000000000000 0;h1 100;0000000000000000000000000000000000000000000000000000000000000000 0;h1 100|0|{"chunks":[{"hash":"h1","size":100}],"levels":[{"left":[],"right":[]},{"left":[{"hash":"f04f4d4245ec66bda7bd6f962f5344d27c7e73c5405e7c83bf61814037633e71","size":100}],"right":[]}]};|
xetrange prove 0 1|nothing|0000000000000000000000000000000000000000000000000000000000000000 0;h1 100;0000000000000000000000000000000000000000000000000000000000000000 0;h1 100|0|{"chunks":[{"hash":"0000000000000000000000000000000000000000000000000000000000000000","size":0}],"levels":[{"left":[],"right":[{"hash":"h1","size":100},{"hash":"0000000000000000000000000000000000000000000000000000000000000000","size":0}]},{"left":[],"right":[{"hash":"fe536ba64afae22e992334c62335987cb8ae79e55f32806d473d7619a83ce721","size":100}]}]};|
xetrange prove 0 1|nothing|h1 18446744073709551615;h2 0|0|{"chunks":[{"hash":"h1","size":18446744073709551615}],"levels":[{"left":[],"right":[{"hash":"h2","size":0}]}]};|
xetrange prove 1 2|nothing|+a chunk;+another;+and a third|0|{"chunks":[{"hash":"3481034b52254c2f1e0143ae20ce9e2459685799a774f5764bf5585211c865c1","size":7}],"levels":[{"left":[{"hash":"fc2d9e764137e94a0c4d7bdc0b584e73a34945fbf4efeef155acc8927c1399ff","size":7}],"right":[{"hash":"b5d2de3673ccda688a6ae4c470f097787aa87b128f134b1f5a7d33379b2f66e9","size":11}]}]};|
xetrange prove 1 3|nothing|+a chunk;+another;+and a third|0|{"chunks":[{"hash":"3481034b52254c2f1e0143ae20ce9e2459685799a774f5764bf5585211c865c1","size":7},{"hash":"b5d2de3673ccda688a6ae4c470f097787aa87b128f134b1f5a7d33379b2f66e9","size":11}],"levels":[{"left":[{"hash":"fc2d9e764137e94a0c4d7bdc0b584e73a34945fbf4efeef155acc8927c1399ff","size":7}],"right":[]}]};|
xetrange prove 0 3|nothing|+a chunk;+another;+and a third|0|{"chunks":[{"hash":"fc2d9e764137e94a0c4d7bdc0b584e73a34945fbf4efeef155acc8927c1399ff","size":7},{"hash":"3481034b52254c2f1e0143ae20ce9e2459685799a774f5764bf5585211c865c1","size":7},{"hash":"b5d2de3673ccda688a6ae4c470f097787aa87b128f134b1f5a7d33379b2f66e9","size":11}],"levels":[{"left":[],"right":[]}]};|
xetrange prove 0 0|nothing|h1 100;h2 200;h3 300|9||xetrange: fault 9;
xetrange prove 2 1|nothing|h1 100;h2 200;h3 300|9||xetrange: fault 9;
xetrange prove 0 4|nothing|h1 100;h2 200;h3 300|9||xetrange: fault 9;
xetrange prove 3 4|nothing|h1 100;h2 200;h3 300|9||xetrange: fault 9;
xetrange prove 0 18446744073709551615|nothing|h1 100;h2 200;h3 300|9||xetrange: fault 9;
xetrange prove 0 1|nothing||9||xetrange: fault 9;
xetrange prove 0 1|nothing|h1 100;@0;h2 200|1||xetrange: fault 1 at line 2;
xetrange prove 0 1|nothing|h1 18446744073709551615;h2 1|2||xetrange: fault 2 at line 2;
xetrange prove 0 1|memory|h1 100|3||xetrange: fault 3;
xetrange prove 0 1|input|h1 100|4||xetrange: fault 4;
xetrange prove 0 1|output|h1 100|5||xetrange: fault 5;
xetrange verify 0497c2ffdb9b034977074a6a2fe7c2a9dcfc7cc0a4f98777ed580f0b8444090f 8 10|nothing|{"chunks":[{"hash":"3481034b52254c2f1e0143ae20ce9e2459685799a774f5764bf5585211c865c1","size":7}],"levels":[{"left":[{"hash":"fc2d9e764137e94a0c4d7bdc0b584e73a34945fbf4efeef155acc8927c1399ff","size":7}],"right":[{"hash":"b5d2de3673ccda688a6ae4c470f097787aa87b128f134b1f5a7d33379b2f66e9","size":11}]}]};another|0|no|
xetrange verify 0497c2ffdb9b034977074a6a2fe7c2a9dcfc7cc0a4f98777ed580f0b8444090f 7 14|nothing|{"chunks":[{"hash":"3481034b52254c2f1e0143ae20ce9e2459685799a774f5764bf5585211c865c1","size":7}],"levels":[{"left":[{"hash":"fc2d9e764137e94a0c4d7bdc0b584e73a34945fbf4efeef155acc8927c1399ff","size":7}],"right":[{"hash":"b5d2de3673ccda688a6ae4c470f097787aa87b128f134b1f5a7d33379b2f66e9","size":11}]}]};another|0|another|
xetrange verify 0497c2ffdb9b034977074a6a2fe7c2a9dcfc7cc0a4f98777ed580f0b8444090f 7 7|nothing|{"chunks":[{"hash":"3481034b52254c2f1e0143ae20ce9e2459685799a774f5764bf5585211c865c1","size":7}],"levels":[{"left":[{"hash":"fc2d9e764137e94a0c4d7bdc0b584e73a34945fbf4efeef155acc8927c1399ff","size":7}],"right":[{"hash":"b5d2de3673ccda688a6ae4c470f097787aa87b128f134b1f5a7d33379b2f66e9","size":11}]}]};another|0||
xetrange verify 0497c2ffdb9b034977074a6a2fe7c2a9dcfc7cc0a4f98777ed580f0b8444090f 14 14|nothing|{"chunks":[{"hash":"3481034b52254c2f1e0143ae20ce9e2459685799a774f5764bf5585211c865c1","size":7}],"levels":[{"left":[{"hash":"fc2d9e764137e94a0c4d7bdc0b584e73a34945fbf4efeef155acc8927c1399ff","size":7}],"right":[{"hash":"b5d2de3673ccda688a6ae4c470f097787aa87b128f134b1f5a7d33379b2f66e9","size":11}]}]};another|0||
xetrange verify 0497C2FFDB9B034977074A6A2FE7C2A9DCFC7CC0A4F98777ED580F0B8444090F 8 10|nothing|{"chunks":[{"hash":"3481034b52254c2f1e0143ae20ce9e2459685799a774f5764bf5585211c865c1","size":7}],"levels":[{"left":[{"hash":"fc2d9e764137e94a0c4d7bdc0b584e73a34945fbf4efeef155acc8927c1399ff","size":7}],"right":[{"hash":"b5d2de3673ccda688a6ae4c470f097787aa87b128f134b1f5a7d33379b2f66e9","size":11}]}]};another|0|no|
xetrange verify 0497c2ffdb9b034977074a6a2fe7c2a9dcfc7cc0a4f98777ed580f0b8444090f 8 17|nothing|{"chunks":[{"hash":"3481034b52254c2f1e0143ae20ce9e2459685799a774f5764bf5585211c865c1","size":7},{"hash":"b5d2de3673ccda688a6ae4c470f097787aa87b128f134b1f5a7d33379b2f66e9","size":11}],"levels":[{"left":[{"hash":"fc2d9e764137e94a0c4d7bdc0b584e73a34945fbf4efeef155acc8927c1399ff","size":7}],"right":[]}]};anotherand a third|0|notherand|
xetrange verify 0497c2ffdb9b034977074a6a2fe7c2a9dcfc7cc0a4f98777ed580f0b8444090f 0 25|nothing|{"chunks":[{"hash":"fc2d9e764137e94a0c4d7bdc0b584e73a34945fbf4efeef155acc8927c1399ff","size":7},{"hash":"3481034b52254c2f1e0143ae20ce9e2459685799a774f5764bf5585211c865c1","size":7},{"hash":"b5d2de3673ccda688a6ae4c470f097787aa87b128f134b1f5a7d33379b2f66e9","size":11}],"levels":[{"left":[],"right":[]}]};a chunkanotherand a third|0|a chunkanotherand a third|
xetrange verify 0497c2ffdb9b034977074a6a2fe7c2a9dcfc7cc0a4f98777ed580f0b8444090f 8 10|nothing|{"chunks":[{"hash":"3481034b52254c2f1e0143ae20ce9e2459685799a774f5764bf5585211c865c1","size":7}],"levels":[{"left":[{"hash":"fc2d9e764137e94a0c4d7bdc0b584e73a34945fbf4efeef155acc8927c1399ff","size":7}],"right":[{"hash":"b5d2de3673ccda688a6ae4c470f097787aa87b128f134b1f5a7d33379b2f66e9","size":11}]}]};a chunk|10||xetrange: fault 10;
xetrange verify 0497c2ffdb9b034977074a6a2fe7c2a9dcfc7cc0a4f98777ed580f0b8444090f 8 10|nothing|{"chunks":[{"hash":"3481034b52254c2f1e0143ae20ce9e2459685799a774f5764bf5585211c865c1","size":7}],"levels":[{"left":[{"hash":"fc2d9e764137e94a0c4d7bdc0b584e73a34945fbf4efeef155acc8927c1399ff","size":7}],"right":[{"hash":"b5d2de3673ccda688a6ae4c470f097787aa87b128f134b1f5a7d33379b2f66e9","size":11}]}]};anothe|10||xetrange: fault 10;
xetrange verify 0497c2ffdb9b034977074a6a2fe7c2a9dcfc7cc0a4f98777ed580f0b8444090f 8 10|nothing|{"chunks":[{"hash":"3481034b52254c2f1e0143ae20ce9e2459685799a774f5764bf5585211c865c1","size":7}],"levels":[{"left":[{"hash":"fc2d9e764137e94a0c4d7bdc0b584e73a34945fbf4efeef155acc8927c1399ff","size":7}],"right":[{"hash":"b5d2de3673ccda688a6ae4c470f097787aa87b128f134b1f5a7d33379b2f66e9","size":11}]}]};another!|10||xetrange: fault 10;
xetrange verify 0497c2ffdb9b034977074a6a2fe7c2a9dcfc7cc0a4f98777ed580f0b8444090f 8 10|nothing|{"chunks":[{"hash":"3481034b52254c2f1e0143ae20ce9e2459685799a774f5764bf5585211c865c1","size":7}],"levels":[{"left":[{"hash":"fc2d9e764137e94a0c4d7bdc0b584e73a34945fbf4efeef155acc8927c1399ff","size":7}],"right":[{"hash":"b5d2de3673ccda688a6ae4c470f097787aa87b128f134b1f5a7d33379b2f66e9","size":11}]}]};another;|10||xetrange: fault 10;
xetrange verify 0497c2ffdb9b034977074a6a2fe7c2a9dcfc7cc0a4f98777ed580f0b8444090f 8 10|nothing|{"chunks":[{"hash":"3481034b52254c2f1e0143ae20ce9e2459685799a774f5764bf5585211c865c1","size":7}],"levels":[{"left":[{"hash":"fc2d9e764137e94a0c4d7bdc0b584e73a34945fbf4efeef155acc8927c1399ff","size":7}],"right":[{"hash":"b5d2de3673ccda688a6ae4c470f097787aa87b128f134b1f5a7d33379b2f66e9","size":11}]}]};|10||xetrange: fault 10;
xetrange verify 0497c2ffdb9b034977074a6a2fe7c2a9dcfc7cc0a4f98777ed580f0b8444090f 8 10|nothing|{"chunks":[{"hash":"3481034b52254c2f1e0143ae20ce9e2459685799a774f5764bf5585211c865c1","size":7}],"levels":[{"left":[{"hash":"fc2d9e764137e94a0c4d7bdc0b584e73a34945fbf4efeef155acc8927c1399ff","size":7}],"right":[{"hash":"b5d2de3673ccda688a6ae4c470f097787aa87b128f134b1f5a7d33379b2f66e9","size":11}]}]}|10||xetrange: fault 10;
xetrange verify 0497c2ffdb9b034977074a6a2fe7c2a9dcfc7cc0a4f98777ed580f0b8444090f 8 10|nothing|{"chunks":[{"hash":"3481034b52254c2f1e0143ae20ce9e2459685799a774f5764bf5585211c865c1","size":7}],"levels":[{"left":[{"hash":"fc2d9e764137e94a0c4d7bdc0b584e73a34945fbf4efeef155acc8927c1399ff","size":7}],"right":[{"hash":"b5d2de3673ccda688a6ae4c470f097787aa87b128f134b1f5a7d33379b2f66e9","size":11}]}]};Another|10||xetrange: fault 10;
xetrange verify 0497c2ffdb9b034977074a6a2fe7c2a9dcfc7cc0a4f98777ed580f0b8444090f 8 10|nothing|{"chunks":[{"hash":"3481034b52254c2f1e0143ae20ce9e2459685799a774f5764bf5585211c865c1","size":7}],"levels":[{"left":[{"hash":"fc2d9e764137e94a0c4d7bdc0b584e73a34945fbf4efeef155acc8927c1399ff","size":7}],"right":[{"hash":"b5d2de3673ccda688a6ae4c470f097787aa87b128f134b1f5a7d33379b2f66e9","size":11}]}]};another;;|10||xetrange: fault 10;
xetrange verify 0497c2ffdb9b034977074a6a2fe7c2a9dcfc7cc0a4f98777ed580f0b8444090f 0 2|nothing|{"chunks":[{"hash":"3481034b52254c2f1e0143ae20ce9e2459685799a774f5764bf5585211c865c1","size":7}],"levels":[{"left":[{"hash":"fc2d9e764137e94a0c4d7bdc0b584e73a34945fbf4efeef155acc8927c1399ff","size":7}],"right":[{"hash":"b5d2de3673ccda688a6ae4c470f097787aa87b128f134b1f5a7d33379b2f66e9","size":11}]}]};another|10||xetrange: fault 10;
xetrange verify 0497c2ffdb9b034977074a6a2fe7c2a9dcfc7cc0a4f98777ed580f0b8444090f 6 8|nothing|{"chunks":[{"hash":"3481034b52254c2f1e0143ae20ce9e2459685799a774f5764bf5585211c865c1","size":7}],"levels":[{"left":[{"hash":"fc2d9e764137e94a0c4d7bdc0b584e73a34945fbf4efeef155acc8927c1399ff","size":7}],"right":[{"hash":"b5d2de3673ccda688a6ae4c470f097787aa87b128f134b1f5a7d33379b2f66e9","size":11}]}]};another|10||xetrange: fault 10;
xetrange verify 0497c2ffdb9b034977074a6a2fe7c2a9dcfc7cc0a4f98777ed580f0b8444090f 13 15|nothing|{"chunks":[{"hash":"3481034b52254c2f1e0143ae20ce9e2459685799a774f5764bf5585211c865c1","size":7}],"levels":[{"left":[{"hash":"fc2d9e764137e94a0c4d7bdc0b584e73a34945fbf4efeef155acc8927c1399ff","size":7}],"right":[{"hash":"b5d2de3673ccda688a6ae4c470f097787aa87b128f134b1f5a7d33379b2f66e9","size":11}]}]};another|10||xetrange: fault 10;
xetrange verify 0497c2ffdb9b034977074a6a2fe7c2a9dcfc7cc0a4f98777ed580f0b8444090f 10 8|nothing|{"chunks":[{"hash":"3481034b52254c2f1e0143ae20ce9e2459685799a774f5764bf5585211c865c1","size":7}],"levels":[{"left":[{"hash":"fc2d9e764137e94a0c4d7bdc0b584e73a34945fbf4efeef155acc8927c1399ff","size":7}],"right":[{"hash":"b5d2de3673ccda688a6ae4c470f097787aa87b128f134b1f5a7d33379b2f66e9","size":11}]}]};another|10||xetrange: fault 10;
xetrange verify 0497c2ffdb9b034977074a6a2fe7c2a9dcfc7cc0a4f98777ed580f0b8444090f 14 25|nothing|{"chunks":[{"hash":"3481034b52254c2f1e0143ae20ce9e2459685799a774f5764bf5585211c865c1","size":7}],"levels":[{"left":[{"hash":"fc2d9e764137e94a0c4d7bdc0b584e73a34945fbf4efeef155acc8927c1399ff","size":7}],"right":[{"hash":"b5d2de3673ccda688a6ae4c470f097787aa87b128f134b1f5a7d33379b2f66e9","size":11}]}]};another|10||xetrange: fault 10;
xetrange verify 0497c2ffdb9b034977074a6a2fe7c2a9dcfc7cc0a4f98777ed580f0b8444090f 8 17|nothing|{"chunks":[{"hash":"3481034b52254c2f1e0143ae20ce9e2459685799a774f5764bf5585211c865c1","size":7},{"hash":"b5d2de3673ccda688a6ae4c470f097787aa87b128f134b1f5a7d33379b2f66e9","size":11}],"levels":[{"left":[{"hash":"fc2d9e764137e94a0c4d7bdc0b584e73a34945fbf4efeef155acc8927c1399ff","size":7}],"right":[]}]};anotherand a thirD|10||xetrange: fault 10;
xetrange verify 5f5df6327d4bfe5fc6a4a47bab97d7457b550e0d38f3b44a43d6eaef6618f60e 8 10|nothing|{"chunks":[{"hash":"3481034b52254c2f1e0143ae20ce9e2459685799a774f5764bf5585211c865c1","size":7}],"levels":[{"left":[{"hash":"fc2d9e764137e94a0c4d7bdc0b584e73a34945fbf4efeef155acc8927c1399ff","size":7}],"right":[{"hash":"b5d2de3673ccda688a6ae4c470f097787aa87b128f134b1f5a7d33379b2f66e9","size":11}]}]};another|10||xetrange: fault 10;
xetrange verify 0000000000000000000000000000000000000000000000000000000000000000 8 10|nothing|{"chunks":[{"hash":"3481034b52254c2f1e0143ae20ce9e2459685799a774f5764bf5585211c865c1","size":7}],"levels":[{"left":[{"hash":"fc2d9e764137e94a0c4d7bdc0b584e73a34945fbf4efeef155acc8927c1399ff","size":7}],"right":[{"hash":"b5d2de3673ccda688a6ae4c470f097787aa87b128f134b1f5a7d33379b2f66e9","size":11}]}]};another|10||xetrange: fault 10;
xetrange verify 0497c2ffdb9b034977074a6a2fe7c2a9dcfc7cc0a4f98777ed580f0b8444090f 8 10|nothing|;another|8||xetrange: fault 8 at line 1;
xetrange verify 0497c2ffdb9b034977074a6a2fe7c2a9dcfc7cc0a4f98777ed580f0b8444090f 8 10|nothing|zz;another|8||xetrange: fault 8 at line 1;
xetrange verify 0497c2ffdb9b034977074a6a2fe7c2a9dcfc7cc0a4f98777ed580f0b8444090f 8 10|nothing|[];another|8||xetrange: fault 8 at line 1: rule 1;
xetrange verify 0497c2ffdb9b034977074a6a2fe7c2a9dcfc7cc0a4f98777ed580f0b8444090f 8 10|nothing|{};another|8||xetrange: fault 8 at line 1: rule 2;
xetrange verify 0497c2ffdb9b034977074a6a2fe7c2a9dcfc7cc0a4f98777ed580f0b8444090f 8 10|nothing|{"chunks":[],"levels":[1]};another|8||xetrange: fault 8 at line 1: rule 3;
xetrange verify 0497c2ffdb9b034977074a6a2fe7c2a9dcfc7cc0a4f98777ed580f0b8444090f 8 10|nothing|{"chunks":[{"hash":"h1","size":-1}],"levels":[]};another|8||xetrange: fault 8 at line 1: rule 4;
xetrange verify 0497c2ffdb9b034977074a6a2fe7c2a9dcfc7cc0a4f98777ed580f0b8444090f 8 10|nothing|{"chunks":[],"levels":[]};another|8||xetrange: fault 8 at line 1: rule 5;
xetrange verify 0497c2ffdb9b034977074a6a2fe7c2a9dcfc7cc0a4f98777ed580f0b8444090f 8 10|nothing|{"chunks":[{"hash":"h1","size":18446744073709551615},{"hash":"h2","size":1}],"levels":[]};another|8||xetrange: fault 8 at line 1: rule 8;
xetrange verify 0497c2ffdb9b034977074a6a2fe7c2a9dcfc7cc0a4f98777ed580f0b8444090f 8 10|memory|{"chunks":[{"hash":"3481034b52254c2f1e0143ae20ce9e2459685799a774f5764bf5585211c865c1","size":7}],"levels":[{"left":[{"hash":"fc2d9e764137e94a0c4d7bdc0b584e73a34945fbf4efeef155acc8927c1399ff","size":7}],"right":[{"hash":"b5d2de3673ccda688a6ae4c470f097787aa87b128f134b1f5a7d33379b2f66e9","size":11}]}]};another|3||xetrange: fault 3;
xetrange verify 0497c2ffdb9b034977074a6a2fe7c2a9dcfc7cc0a4f98777ed580f0b8444090f 8 10|input|{"chunks":[{"hash":"3481034b52254c2f1e0143ae20ce9e2459685799a774f5764bf5585211c865c1","size":7}],"levels":[{"left":[{"hash":"fc2d9e764137e94a0c4d7bdc0b584e73a34945fbf4efeef155acc8927c1399ff","size":7}],"right":[{"hash":"b5d2de3673ccda688a6ae4c470f097787aa87b128f134b1f5a7d33379b2f66e9","size":11}]}]};another|4||xetrange: fault 4;
xetrange verify 0497c2ffdb9b034977074a6a2fe7c2a9dcfc7cc0a4f98777ed580f0b8444090f 8 10|output|{"chunks":[{"hash":"3481034b52254c2f1e0143ae20ce9e2459685799a774f5764bf5585211c865c1","size":7}],"levels":[{"left":[{"hash":"fc2d9e764137e94a0c4d7bdc0b584e73a34945fbf4efeef155acc8927c1399ff","size":7}],"right":[{"hash":"b5d2de3673ccda688a6ae4c470f097787aa87b128f134b1f5a7d33379b2f66e9","size":11}]}]};another|5||xetrange: fault 5;
xetrange join|nothing|{}|8||xetrange: fault 8 at line 1: rule 2;
xetrange root|nothing|zz|8||xetrange: fault 8 at line 1;
xetrange root|errors|zz|8||
xetrange|nothing||64||xetrange: expected make, join, root, prove FIRST END, verify HASH FROM TO, --help or --version;
xetrange |nothing||64||xetrange: expected make, join, root, prove FIRST END, verify HASH FROM TO, --help or --version;
xetrange unmake|nothing||64||xetrange: expected make, join, root, prove FIRST END, verify HASH FROM TO, --help or --version;
xetrange make join|nothing||64||xetrange: expected make, join, root, prove FIRST END, verify HASH FROM TO, --help or --version;
xetrange make |nothing||64||xetrange: expected make, join, root, prove FIRST END, verify HASH FROM TO, --help or --version;
xetrange  make|nothing||64||xetrange: expected make, join, root, prove FIRST END, verify HASH FROM TO, --help or --version;
xetrange prove|nothing|h1 100|64||xetrange: expected make, join, root, prove FIRST END, verify HASH FROM TO, --help or --version;
xetrange prove 0|nothing|h1 100|64||xetrange: expected make, join, root, prove FIRST END, verify HASH FROM TO, --help or --version;
xetrange prove 0 1 2|nothing|h1 100|64||xetrange: expected make, join, root, prove FIRST END, verify HASH FROM TO, --help or --version;
xetrange prove  0 1|nothing|h1 100|64||xetrange: expected make, join, root, prove FIRST END, verify HASH FROM TO, --help or --version;
xetrange prove 00 1|nothing|h1 100|64||xetrange: expected make, join, root, prove FIRST END, verify HASH FROM TO, --help or --version;
xetrange prove +0 1|nothing|h1 100|64||xetrange: expected make, join, root, prove FIRST END, verify HASH FROM TO, --help or --version;
xetrange prove -1 1|nothing|h1 100|64||xetrange: expected make, join, root, prove FIRST END, verify HASH FROM TO, --help or --version;
xetrange prove 0 0x1|nothing|h1 100|64||xetrange: expected make, join, root, prove FIRST END, verify HASH FROM TO, --help or --version;
xetrange prove 0 18446744073709551616|nothing|h1 100|64||xetrange: expected make, join, root, prove FIRST END, verify HASH FROM TO, --help or --version;
xetrange verify|nothing|zz|64||xetrange: expected make, join, root, prove FIRST END, verify HASH FROM TO, --help or --version;
xetrange verify 0497c2ffdb9b034977074a6a2fe7c2a9dcfc7cc0a4f98777ed580f0b8444090f|nothing|zz|64||xetrange: expected make, join, root, prove FIRST END, verify HASH FROM TO, --help or --version;
xetrange verify 0497c2ffdb9b034977074a6a2fe7c2a9dcfc7cc0a4f98777ed580f0b8444090f 8|nothing|zz|64||xetrange: expected make, join, root, prove FIRST END, verify HASH FROM TO, --help or --version;
xetrange verify 0497c2ffdb9b034977074a6a2fe7c2a9dcfc7cc0a4f98777ed580f0b8444090f 8 10 12|nothing|zz|64||xetrange: expected make, join, root, prove FIRST END, verify HASH FROM TO, --help or --version;
xetrange verify 497c2ffdb9b034977074a6a2fe7c2a9dcfc7cc0a4f98777ed580f0b8444090f 8 10|nothing|zz|64||xetrange: expected make, join, root, prove FIRST END, verify HASH FROM TO, --help or --version;
xetrange verify 0497c2ffdb9b034977074a6a2fe7c2a9dcfc7cc0a4f98777ed580f0b8444090f0 8 10|nothing|zz|64||xetrange: expected make, join, root, prove FIRST END, verify HASH FROM TO, --help or --version;
xetrange verify 0497c2ffdb9b034977074a6a2fe7c2a9dcfc7cc0a4f98777ed580f0b8444090g 8 10|nothing|zz|64||xetrange: expected make, join, root, prove FIRST END, verify HASH FROM TO, --help or --version;
xetrange verify 0497c2ffdb9b034977074a6a2fe7c2a9dcfc7cc0a4f98777ed580f0b8444090f 08 10|nothing|zz|64||xetrange: expected make, join, root, prove FIRST END, verify HASH FROM TO, --help or --version;
xetrange verify 0497c2ffdb9b034977074a6a2fe7c2a9dcfc7cc0a4f98777ed580f0b8444090f 8 18446744073709551616|nothing|zz|64||xetrange: expected make, join, root, prove FIRST END, verify HASH FROM TO, --help or --version;
xetrange make|text of arguments||64||xetrange: expected make, join, root, prove FIRST END, verify HASH FROM TO, --help or --version;
xetrange --version|nothing|zz|0|xetrange 1.1.0 (hashes of xet-core-structures 1.5.2);|
xetrange --help|output|zz|5||xetrange: fault 5;"#;

// Words that are wrong for each program, separated by spaces. The first row is one empty word.
const WRONG_WORDS: &str = "
-
--
-?
-V
-v
-H
help
version
--Help
--help=
--helper
--hel
--version1
--versio
merge
Join
Make
ROOT
makes
mak
--help --help
--version --version
--help --version
make join
make join root
join root --help
root root root root
-h -h -h";

// Returns what the runtime gives for the words of a command.
fn arguments(rt: &impl Abort, alloc: Global, command: &str, failing: &str) -> io::Result<Args> {
    if failing == "list of arguments" {
        return Err(io::Error::from(ErrorKind::OutOfMemory));
    }
    if failing == "text of arguments" {
        return Err(io::Error::from(ErrorKind::InvalidData));
    }
    let mut words = Vec::new(alloc);
    for word in command.split(' ') {
        let word = String::from_str(alloc, word).expect(rt, "memory");
        words.push(word).expect(rt, "memory");
    }
    Ok(words.into_iter())
}

fn manner(is_failing: bool) -> Manner {
    if is_failing { FAILING } else { EVEN }
}

// Runs a program, and returns its status and what it wrote to standard output and standard error.
fn run(
    alloc: Global,
    command: &str,
    failing: &str,
    args: io::Result<Args>,
    input: &[u8],
) -> (u8, Vec<u8>, Vec<u8>) {
    let granted = if failing == "memory" { 0 } else { u32::MAX };
    let refusing: RefusingAllocator<Global> = RefusingAllocator::new(alloc, granted);
    let mut r = Input::new(input, manner(failing == "input"));
    let mut w = Output::new(alloc, manner(failing == "output"), EVEN);
    let mut errors = Output::new(alloc, manner(failing == "errors"), EVEN);
    let status = if command.starts_with("xetroot") {
        xetroot_text::program::program::<MerkleHashSubtree<&RefusingAllocator<Global>>, _, _, _>(
            &refusing,
            args,
            &mut r,
            &mut w,
            &mut errors,
        )
    } else {
        xetrange_text::program::program(&refusing, alloc, args, &mut r, &mut w, &mut errors)
    };
    let (Output { bytes, .. }, Output { bytes: lines, .. }) = (w, errors);
    (status, bytes, lines)
}

// Returns the status of a run, and what it wrote to standard output and standard error, in the form of a row of `RUNS`.
fn outcome(rt: &impl Abort, alloc: Global, command: &str, failing: &str, input: &str) -> String {
    let text = input.replace(alloc, ";", "\n").expect(rt, "memory");
    let args = arguments(rt, alloc, command, failing);
    let (status, output, errors) = run(alloc, command, failing, args, text.as_bytes());
    let output = String::from_utf8(output).expect(rt, "a text");
    let errors = String::from_utf8(errors).expect(rt, "a text");
    let row = format!(in alloc; "{status}|{output}|{errors}").expect(rt, "memory");
    row.as_str().replace(alloc, "\n", ";").expect(rt, "memory")
}

#[test]
fn runs_end_with_their_status_and_write_to_their_stream(rt: HostRuntime) {
    let runs = with_hashes(rt.alloc(), RUNS).expect(&rt, "memory");
    for run in runs.as_str().lines() {
        let (command, failing, input, expected) = four_fields(run, '|').expect(&rt, "four fields");
        let found = outcome(&rt, rt.alloc(), command, failing, input);
        assert!(rt;
            found.as_str() == expected,
            "{command}, {failing}, {input}: {found}"
        );
    }
}

#[test]
fn help_goes_to_standard_output(rt: HostRuntime) {
    for (command, text) in [
        ("xetroot -h", XETROOT_HELP),
        ("xetroot --help", XETROOT_HELP),
        ("xetrange -h", XETRANGE_HELP),
        ("xetrange --help", XETRANGE_HELP),
    ] {
        let found = outcome(&rt, rt.alloc(), command, "nothing", "zz");
        let lines = text.replace(rt.alloc(), "\n", ";").expect(&rt, "memory");
        let expected = format!(in rt.alloc(); "0|{lines}|").expect(&rt, "memory");
        assert!(rt; found == expected, "{command}: {found}");
    }
}

// Returns whether a program refuses some words.
fn is_refused(rt: &impl Abort, alloc: Global, program: &str, words: &str, known: &str) -> bool {
    let command = format!(in alloc; "{program} {words}").expect(rt, "memory");
    let expected = format!(in alloc;
        "64||{program}: expected {known}, --help or --version;"
    ).expect(rt, "memory");
    outcome(rt, alloc, &command, "nothing", "") == expected
}

#[test]
fn wrong_words_are_refused_by_both_programs(rt: HostRuntime) {
    for words in WRONG_WORDS.lines() {
        assert!(rt;
            is_refused(&rt, rt.alloc(), "xetroot", words, "no argument"),
            "{words}"
        );
        assert!(rt;
            is_refused(
                &rt,
                rt.alloc(),
                "xetrange",
                words,
                "make, join, root, prove FIRST END, verify HASH FROM TO"
            ),
            "{words}"
        );
    }
}

// A text of two pieces of letters.
#[derive(Drop)]
struct TwoPieces(String, String);

impl TwoPieces {
    fn new(rt: &impl Abort, alloc: Global, front: usize, back: usize) -> Self {
        let front = "a".repeat(alloc, front).expect(rt, "memory");
        let back = "b".repeat(alloc, back).expect(rt, "memory");
        TwoPieces(front, back)
    }
}

impl fmt::Display for TwoPieces {
    fn fmt<W: fmt::Write>(&self, f: &mut fmt::Formatter<W>) -> fmt::Result {
        f.write_str(self.0.as_str())?;
        f.write_str(self.1.as_str())
    }
}

// The letters of each piece, and whether the line is one write.
const LINES: [(usize, usize, bool); 9] = [
    (0, 0, true),
    (1, 0, true),
    (50, 49, true),
    (99, 0, true),
    (0, 99, true),
    (50, 50, false),
    (100, 0, false),
    (0, 101, false),
    (500, 7000, false),
];

// Returns whether a text of two pieces is printed as a line, by one write or more.
fn is_printed(
    rt: &impl Abort,
    alloc: Global,
    (front, back): (usize, usize),
    is_one_write: bool,
) -> bool {
    let text = TwoPieces::new(rt, alloc, front, back);
    let expected = format!(in alloc; "{text}\n").expect(rt, "memory");
    let mut whole = EVEN;
    whole.most = usize::MAX;
    let mut printed = Output::new(alloc, whole, EVEN);
    print_line(&mut printed, text);
    let is_right = printed.device.calls == 1 || !is_one_write;
    is_right && printed.bytes.as_slice() == expected.as_bytes()
}

#[test]
fn a_line_is_printed_whole_however_long(rt: HostRuntime) {
    for (front, back, is_one_write) in LINES {
        assert!(rt;
            is_printed(&rt, rt.alloc(), (front, back), is_one_write),
            "{front} {back}"
        );
    }
}
