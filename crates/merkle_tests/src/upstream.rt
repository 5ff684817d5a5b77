//! Roots, file hashes and canonical subtrees that the crate `xet-core-structures` 1.5.2 itself computed.

use std::alloc::Global;
use std::process::Abort;
use test_support::texts::four_fields;
use xet_hash::data_hash::{DataHash, MerkleHash, compute_data_hash};
use xet_merkle::aggregated_hashes::{Node, file_hash, xorb_hash};
use xet_merkle::merkle_hash_subtree::MerkleHashSubtree;

// Returns nodes with the hashes of the seeds from `first` on.
fn drawn_from(rt: &impl Abort, alloc: Global, first: u64, count: u64) -> Vec<Node> {
    let mut nodes = Vec::new(alloc);
    for i in 0..count {
        let hash = DataHash::random_from_seed(first.saturating_add(i));
        let size = i.saturating_mul(977) % 9901 + 100;
        nodes.push((hash, size)).expect(rt, "memory");
    }
    nodes
}

// Returns the nodes of a pattern, in which `|` is a natural cut.
fn patterned(rt: &impl Abort, alloc: Global, pattern: &str) -> Vec<Node> {
    let mut nodes = Vec::new(alloc);
    let mut size = 7u64;
    let mut number = 0u64;
    for letter in pattern.chars() {
        number = number.saturating_add(1);
        let (twice, thrice) = (number.saturating_mul(2), number.saturating_mul(3));
        let last = number
            .saturating_mul(4)
            .saturating_add(u64::from(letter != '|'));
        let hash = MerkleHash::from([number, twice, thrice, last]);
        nodes.push((hash, size)).expect(rt, "memory");
        size = size.saturating_add(100);
    }
    nodes
}

// Returns the list of a row: a first seed, a comma and a count, or a pattern.
fn list(rt: &impl Abort, alloc: Global, text: &str) -> Vec<Node> {
    match text.split_once(',') {
        Some((first, count)) => {
            let first = first.parse().expect(rt, "a number");
            let count = count.parse().expect(rt, "a number");
            drawn_from(rt, alloc, first, count)
        }
        None => patterned(rt, alloc, text),
    }
}

// Returns the data hash of the JSON text of a list's subtree, which is open at both ends.
fn hash_of_json(rt: &impl Abort, alloc: Global, nodes: &[Node]) -> MerkleHash {
    let subtree = MerkleHashSubtree::from_chunks(alloc, false, nodes, false);
    let json = subtree.expect(rt, "a subtree").to_json(alloc);
    let text = json
        .expect(rt, "memory")
        .to_string(alloc)
        .expect(rt, "memory");
    compute_data_hash(text.as_str().as_bytes())
}

// Returns the hash with a text.
fn hash(rt: &impl Abort, text: &str) -> MerkleHash {
    DataHash::from_hex(text).expect(rt, "a hash")
}

// Returns whether the list of a row has its hashes.
fn agrees(rt: &impl Abort, alloc: Global, row: &str) -> bool {
    let (text, root, file, json) = four_fields(row, ' ').expect(rt, "four fields");
    let nodes = list(rt, alloc, text);
    let found_root = xorb_hash(alloc, &nodes).expect(rt, "a root");
    let found_file = file_hash(alloc, &nodes).expect(rt, "a file hash");
    (found_root, found_file) == (hash(rt, root), hash(rt, file))
        && hash_of_json(rt, alloc, &nodes) == hash(rt, json)
}

#[test]
fn lists_have_the_hashes_of_the_rust_crate(rt: HostRuntime) {
    for row in LISTS.lines() {
        assert!(rt; agrees(&rt, rt.alloc(), row), "{row}");
    }
    assert!(rt; LISTS.lines().count() == 30);
}

// Each row has a list and what the Rust crate computes for it: the root, the file hash, and the data hash of the JSON text
// of its subtree, which is open at both ends. tests/vectors/upstream.json has these lists, and longer ones.
const LISTS: &str =
    "1000003,1 2ea55c532dcb06b01c7334775d697f4e60ef21c683c300582876c50816f09ad8 87ce126aadb78ce124ecd60ebb606f4d222c74909b9c362170ffe96fad66b344 21b9858412bcf667b233be9e55cdb1c7d7727b2edefed6947b74af99f60350e9
2000006,2 ef4020834434927a24549bd3c2e3ed07eafdcb80bc48e3791f3955f5902a020f 36828e6e69b96699413b4cf54784e59bf296aa680018b9672d60553a31eeb955 9bc683fe67e74cb683c8ee7a7919ba165d0dd622c5e75e8759a1fee9cdebdaee
3000009,3 f7952c22a09c7d81a27972984d3141b7662d42e7ed1d6f7ef99fbb031e609698 6cbea1470690609692a0a010cfe23be859e3cac92a99567bb8c0231378faf5cc 820ddfba753de6c7b68b52f88b69d8a0808c9f9b3ecfe7509349d40eec70c238
4000012,4 c33d87d651b468f20d6e706bd060dd200a6ea63fcd870a6108cfeec9d61c22bd d6bf4ad5fb1ea29f935deac8a9efbc09d5171be5c1d83b9cbb4d98fb31ad79f3 d64fc3f31c65f8743cc7c604cabed2846a3c083fbe2d1fb0198bf0d061b17ce0
9000027,9 a2030a8d78095553123b393593abb03be81a70561f927fceee7127b04b0d2556 ef34d7d469a3f9ea53eaf6db26f31786a3f7c690474639001e2be9d6929c72a9 a5662556e9878cef0405dd3c69e8b9b1f1adb17915ebf5713bcdcae2c9b30ab6
10000030,10 34a5d700ff0583d6bbfab3f6dc1fc6f45db5ae73180758ef6a48d6b7c84a8446 792d610615761b317423c64f3fb1c766a20b10d090642e418ae2d61630c1c5b0 b008f78ab1f65a81ef64d92b181b75b478f8bfecc2a5bec6d592c6b9172fda3c
16000048,16 4330702bf3a5cd8d59fb445577bcb3983e5e00f8b9a77cd247f783ac1be23fd5 cb1f45c5985de38e50c36280f8e54587f1e3859b383a3a154534ce774ce6c1c5 7e3a00b918dd92659de2cb004b79a54fc00b4de4a5f6eb6fcd6a41edce2094b7
33000099,33 3298b5806216ac29478add652adf36b601f009bf9ea4ebdf0be50c54d794e7ab 092ce347c6532b75a83c8cacfae6669520e3975792a74ca44a497eb6d16b3308 45ca8a5b41dec6cce58dfb7ebf6dc102d266dabdae97d3336bbd970ae336047f
48000144,48 ca469ff4e65bb9864fb89f376e73d94d0c0cd1c21f0be22831691ff13974aade f6b79985cfeb3f3207fa9847320e9423fb1f4756569d159e84031c9b33ce56e8 7ad0a0a58122b205a556d719d25af39ddd1506d95fe9ffa06e59cd1eccfe7f0f
64000192,64 cd40779f07dfe209ef3300bf7578c0dfdd86e0356205d228e924df3df89774b6 a397074de8ff3cfa542dda7bbd66eea665c0517b1131724e297f91c859b832a0 88472309d6a1d56653f88c45697ef3aa8cab4a73e49a72188f497400d0043e09
65000195,80 577bbc20af29c10ee0ff4ed12f03a295992ab245d2baf3205abc42a043bf749c d3df642e105c5dc8ab7d5a4d6a5e8ad2cbeae4a8af8d34e7c99331ed9bad0bb5 38d5900d30540bb0a7de4066f782d4e14757c7d7a1525cf513f4dd31ed1fc4fb
66000198,100 1d4f46a7c844b2fda7034c54526e80705dc50de911d6c5e24e315329c8c4c1d8 b6c69a0db7ed0adf33a9e24d688d7e7fc1bf8e692dd353b2244d4649683ab7af 38f85914c3fd62eaa7fdeac2de6d6100aa5064ac4b8514e1997e0a380dd0bde2
67000201,128 4f72010dbb2e4c6ab65cff3778334b7bc22adf6cb75ef7fd69fc6a9d2955cc2a 0a9f75059617a47c1646d61688ef47c69cfec290e399efc45556cbaf491e2bfc 98e74b74066d51da176422dff03d0195e89150520e465eaea9c5a0b2c19c0452
68000204,200 005f112788b070cf50900aebcee946abbcef73772d0e84dddb337fd8dc515035 d2deba5c79c9297fa1ed3e53ca10d0a70ac981511ca4e7996acd46680f3c497f f9d105ce958c576d55ea7239a0a436e7284d6d3477fdbfdfb6e5090c8b549363
69000207,256 c2487137c4f8a1f6b0d4a7fcf5c3b71f40be5a4b1f6b644cb6ac2b7d11f0caf4 a8927378fa1781aefa81a499e5c66cc22afd0dc42e14038d7253e8ce78fdc85d 966f2ab58532136395009abbeb6a15867e8f40ea4bbd74acf5d0aab828c5b3b1
.................................................................................... 9e4cf04dd07a612979628e3686f3474998af98bbbf7034b9f080dabb54da13ba 4adbc5c3519f29fa7663bd6d1b44cab71b38b25fae284bae7b45f85dabd64497 6790ff17bc56a59aae69c5e0c81a835dedb7b28032cb2e39bec533bedaa61bd7
|||||||||||||||||||||||||||||||||||||||||||||||||||||||||||||||||||||||||||||||||| 0dad0455e7f88d6c656b42879148178ebb484dedac53bb508cc4c823252e1b75 79ce450c160b789859983113e0ffb828b8927ea04afe35b2f3f4cff5239b49e7 c6fdf1d9c8b530e6243e827b9a492f3d3942df9f43bdec648fda57ba32a4625e
|.....|....|...||.|.....|.||..||....|..|...|......|.||..|.||||...||.|....|..|.|.|.|....||.||..|.|||.||....|..|.|..||...|.|||..|..|..|.||.||..|..|.....|.||.|..|. 4616864d12ea7b7c5a3204866ff320175b8da462ff2f0861e9006ca9fd036151 9771f60041bbf806d07fa8146b9ef35995f259d4455f0e5f96b9c1f3e54e03cb 5ccf468ade8ac79c2d54998f7faaea7d7e90496fac21f4fd66b2cf8ba9d6e307
|.|.|||.|.|||....||||.|...|||.||||..|......|...|||.|..|||||||||||.|.......||..|.|.|.||||..||.|.||..|.|||||||..|..||...|||||||........|.||..|...||||...|||..|||....|.....||..|||||.||||. dcfba55a3947263dd869dce1ee39f8a17df8734c9f7556044b0a21a8b144004c fc522dc6dfa465dd870922a934d97ceea454486455207a6e6c9ff669d862aec9 0500fed0cf7eb7231b8eeb617393bd51e24484ab4916bd686034a1caac86c330
|.|||..|..||.|.|.|.||...||.|..|.||.||||.|....||.|||.||.|||..|...|....|.|||||.||..||..|.|.||||.|.|...|||.|.||...||.||..||.|.|.|||..|.....||.||.|...|||.||..|..||.|||.||.|.|||.....|...||||.. 28a6b8c2a13c10af98fae191733196deeb6dc88cd2e541c1df883562b789455f 6d21fcd0b4ceafe7c235a907582d23ef4946439f32dbc09a231f8281f8652689 f92e8aa26aeae856771eac13522b5a3a7abb7b959c394133028e2958517e9e57
.||...||.|||......|.||.|...|..|.|.|.|..|..|.|.|...|.|..|.| 220114415d1e00b173e8aec2efcaff010e42eb4c2b6c7174c8a1490c5d383cca 9f637e087b48affafe861d67a8d1d8ec32543faa89e6db5d2770996691c52837 47d06e8198a7132ae1da094c0424c51e7c83dc4f9e1950cba976b07a90c343e9
|..|......|.||......|.||||....|......|.||......|.......|........ b4b75421de6b28b14bc12881dc8c4d6fd9514977f377c5cead14b4065c270986 424cd7ba5790bef94f80d1e0205b02aa02f302904f32b4ba6c3f380035e57234 23d9e7159dcede8a06473add66856425d188981409f4ca332df8de880cb877ac
..........|......|...|.|..|.|.......|.|..|.||....|..|.||...| a88e6e5b98ea245d0e0df464b7ca422d36a64c5fc175f54248dc38a963573eab 4c9ea17d55faaba5e41a1395b8b2ed948896be463be1322fa1d4c2a8703910bd 9f051cc79eb685893accd2cc9ecfdc09a303c3ee31a3ef7b4e3f008588150aba
|.....|....|||...|...|........| 2074985a95e5a6c5c77973959aa181cf5b45aa7f7b4debd12d8aa9f2a85bfb5e f7e896d5e8d3702f4c7844a7ca9f0cec71fd86bf787011e511cf829b4c121b79 876fa32cb9987ae39ed0115887ac53ceb226021a89f30b32f38ca2572a09fb54
|...||.|...||..||||||...|...|...|.|..|.|.||||.||..|..|..|||..|.|... e6b1a0b082b695e3258a430fff376f749e59e5385b170db6ca80c8ec315e5c7c e19087162acff8d0bae0628f391ecdeb737ea7cd1ca81fa5175e25d1c9f613ee 8539251c48d39c79a4c97be6b64d2e169a8a86b4669e8e9a339b05f547b8e8fb
.|.....|..|.....||..|...|...........|.|..|. 499a1e7f0bf48c45564efb7af1d9e5e3da17b1ff5e89e2a67e4d5822734ef991 711b83d891392857763d6ac30d37df4628d55d2453435e46e0a83a4d667b821b 98ffb8aa94abb0bd638c3f1ad090a8074049dc581443159ce142912462eadd44
..............|...... 717764f92af5ce3a69ed86b23916637b684973f13602332079493d7cafd9b900 0c47d639fb3f702d195263b6e8aa0d5998799a8f76ee3932f275c22fd8cc13d4 724b1db6a4c779bade600b751b9925f79c36c738761da9d6cbdacf677fa7a6dd
....|.......................... 031b4a0b30ccbb3c25865037174fb95c3174dd830505d5ab0e87d63a0c29f4ba e460c3394aed37a79310307ca741160f4a6aefeb2490aa183c551bc24c16ecd3 37bf7bac143ea465d9284b62bf4defabf628cae7d88e943ca065723e3657cb03
....|..|.|..|..|||..|.. e075d57556b7c1bb57939ba956dfbc7896cb15755d3137adf6a7be64baa76b2c 7116caccf2f1c0b62d2bb249259df4aa69a6e0344235fdfa853c38b4572ad30e 09a05a886470d8992a93e553cc1b1c8af12c69e096b45a77d572ce2ddfacd48f
..|.|||..|.|||.|...||||.||... 784ce9ef743d362712dbf3e07421f40a8a96e57ba1cdd34af0fe142b56c88df1 4337a5595410450ee804b5f5d701f03eaf835f23d180ead520d3244a115c1500 939abc8d6cce48ca454514ee56aec4718f8042c4bcffa3f35689542ce42ea43d
";
