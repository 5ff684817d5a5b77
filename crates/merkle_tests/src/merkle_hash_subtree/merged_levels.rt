//! The subtrees of 300 random lists, merged from random ranges two by two in random order. The expected values were
//! computed without this code, from the whole list at every level, as the definition says.

use rand_core::{Rng, SeedableRng};
use rand_xoshiro::Xoshiro256PlusPlus;
use std::alloc::Global;
use std::process::Abort;
use test_support::{MARKS, drawn_lengths, merge_into_previous, numbered_list, ranges, summary};
use xet_merkle::merkle_hash_subtree::MerkleHashSubtree;

// Merges two neighbouring ranges at a random place until one range is left.
fn merge_at_drawn_places(
    rt: &impl Abort,
    generator: &mut Xoshiro256PlusPlus,
    ranges: &mut Vec<MerkleHashSubtree>,
) {
    for others in (1..ranges.len()).rev() {
        let place = (generator.next_u64() % others as u64).saturating_add(1) as usize;
        merge_into_previous(ranges, place).expect(rt, "a subtree");
    }
}

// Returns random ranges of the list of a number.
fn drawn_ranges(
    rt: &impl Abort,
    generator: &mut Xoshiro256PlusPlus,
    alloc: Global,
    number: u64,
) -> Vec<MerkleHashSubtree> {
    let chunks = numbered_list(alloc, number.saturating_add(300)).expect(rt, "memory");
    let marks = MARKS[(generator.next_u64() % 4) as usize];
    let lengths = drawn_lengths(generator, alloc, chunks.len() as u64).expect(rt, "memory");
    ranges(alloc, &chunks, &lengths, marks).expect(rt, "ranges")
}

// Returns whether the ranges of a number are merged to a subtree with these outer marks and this summary.
fn are_merged_to(rt: &impl Abort, alloc: Global, number: u64, expected: &str) -> bool {
    let mut generator = Xoshiro256PlusPlus::seed_from_u64(number.saturating_add(1000));
    let mut ranges = drawn_ranges(rt, &mut generator, alloc, number);
    merge_at_drawn_places(rt, &mut generator, &mut ranges);
    let merged = ranges.first().expect(rt, "a range");
    let (at_start, at_end) = (merged.at_start(), merged.at_end());
    let summary = summary(alloc, merged).expect(rt, "memory");
    let found = format!(in alloc; "{at_start},{at_end} {summary}");
    found.expect(rt, "memory").as_str() == expected
}

#[test]
fn merged_levels_are_those_of_whole_lists(rt: HostRuntime) {
    for (number, expected) in SUMMARIES.lines().enumerate() {
        assert!(rt;
            are_merged_to(&rt, rt.alloc(), number as u64, expected),
            "{number}"
        );
    }
    assert!(rt; SUMMARIES.lines().count() == 300);
}

// The expected summaries, one per line, from number 0 on.
const SUMMARIES: &str = "true,false 1,0 9a0855200596bd71
true,true 0,0 0,0 1,0 67a587c519978ddb
false,true 10,0 17,0 e44ed1c87ac9dc6e
true,true 0,0 0,0 1,0 d3e4fb884d42e912
true,false 0,33 0,6 15,0 9e00034b412d9887
true,true 0,0 1,0 cc024fff15543923
false,false 2,0 f38b207976f45c3a
false,true 7,0 e122cfe4bdf529dd
false,false 12,0 b5e711dfb816d242
true,true 0,0 0,0 0,0 0,0 1,0 b84f55a25c525eae
true,true 0,0 0,0 1,0 bf06650f32f03622
true,true 0,0 0,0 0,0 1,0 ca710201270555b9
false,true 9,0 b291c6c2e761ad4b
false,false 16,6 11,0 1af83a65aa26ce5b
true,false 0,209 0,8 0,17 2,0 22fcc5521c403081
false,false 2,0 93bfa59037c13097
true,true 0,0 0,0 1,0 4660a7b3bae095bb
false,false 10,8 4,0 0f07ec54e2464cfa
false,true 4,0 a62796e36392e7a5
true,true 0,0 0,0 0,0 0,0 0,0 1,0 c611c7b3b983454c
false,true 5,0 58a26e575c96e29a
false,false 0,0 e0f2cf784e7e5f10
true,false 0,9 6,0 a1d5ad499dc31ca8
true,true 0,0 0,0 0,0 0,0 1,0 3d0506b42927655c
true,false 0,13 0,22 11,0 9e1181082cf2c321
false,false 6,0 192b12549dea5d90
false,false 16,0 72d5355eee25a234
false,true 14,0 15,0 470ad1a2621e0500
false,false 205,0 e465ad5fdd746018
true,false 0,47 0,29 15,0 de980310b552b996
true,false 7,0 8f1cfd29948a4efd
true,false 14,0 57b9162a615daf79
false,true 26,0 10,0 5b3ee7fe18d48eb7
false,false 13,51 29,0 0025d7eba4bb186a
true,false 0,20 0,13 0,13 3,0 b439b97c41a41257
false,false 9,0 2d27e17a506bcb0f
false,false 3,0 7d6e110914d44ca5
true,true 0,0 1,0 bb41bccd7a4315dc
true,true 0,0 0,0 0,0 1,0 f1bc8a728f8e9a36
false,true 55,0 13,0 11,0 3,0 07bf5cd9767809da
true,true 0,0 1,0 3a8a679d81346893
true,false 0,0 e0f2cf784e7e5f10
true,false 17,0 55614efb534da741
true,false 0,60 0,33 2,0 61167341360e8d05
true,true 0,0 0,0 0,0 0,0 1,0 08801948ae9cb211
true,true 0,0 1,0 cd149c677a2430a3
true,true 0,0 0,0 1,0 20b3a19c99dc242d
false,true 83,0 8a1bca6ddc837412
false,false 7,11 40,0 9285fa49dc11017a
true,true 0,0 0,0 0,0 0,0 1,0 0882718701a8af33
true,false 8,0 5039fbbea19e752f
false,true 14,0 3,0 daf40f5097e8cae1
false,false 10,5 8,0 ce092bbb249fe0f3
false,false 15,4 35,0 352fed3892d3a83e
false,false 23,19 26,57 9,0 5cec0eb4964a29f3
false,true 1,0 232d6da1a14ba8e4
true,true 0,0 0,0 0,0 1,0 9d1306f2c7781fab
false,true 41,0 0e57c91abc397c91
true,false 0,6 31,0 72e9cbc9aa1f416a
true,false 0,4 0,20 15,0 2c89934280c3de19
false,true 7,0 a891dfaa5a18edae
true,false 1,0 82484cedb32e9ca3
true,false 0,15 14,0 0ee2983df0b75170
true,false 2,0 bc46add240f5fcd4
false,false 8,35 79,0 56a33d5ab029b0ae
true,true 0,0 db07bd1bc239b73a
true,true 0,0 0,0 1,0 3af8274a0932a7e1
true,false 0,7 6,0 1477e66148c3a8ed
true,true 0,0 0,0 0,0 1,0 3cf7ce4188c27380
false,true 14,0 41,0 21,0 6a5d649a203552f7
false,true 9,0 2ce6821e6fc8fb44
true,true 0,0 0,0 1,0 22476873a1a431bd
true,false 0,9 8,0 4f63289c84d107a9
true,false 0,9 16,0 9bd98865466ae883
true,true 0,0 0,0 0,0 0,0 1,0 2080b388c50654ee
false,true 5,0 5240ae06eda3d78c
true,false 9,0 eb3bff98d40d983f
true,true 0,0 0,0 0,0 1,0 d13ca4a3a869f161
false,false 54,23 14,15 2,0 a416e3ead2e23dc7
true,false 0,8 0,7 9,0 9f825702deb80446
false,false 3,0 28e6a6dc99148ad2
true,false 0,0 e0f2cf784e7e5f10
true,false 28,0 eb8359491e5684c2
false,true 36,0 f110f50b1f6a9f4c
true,true 0,0 0,0 0,0 0,0 1,0 54d595538fa19ede
true,false 5,0 90086ce70ff1a604
false,false 7,0 8cccb95f22039ae0
true,false 0,11 10,0 6ab4234360e42800
false,false 26,45 21,0 8630a44de74ca2f6
true,true 0,0 0,0 0,0 0,0 0,0 1,0 fd44fab4d592ede5
true,true 0,0 1,0 19e5c6f1b44e0555
false,true 21,0 70ed51f6535d1de8
true,false 0,39 0,7 1,0 bd64d8b351f011ad
true,false 0,7 0,37 3,0 bd354a65040025ba
false,true 6,0 39,0 5,0 962dbdc37eb7cdd7
false,false 2,0 fb6a982d71d2867e
false,false 21,0 2190b0e38208530c
true,true 0,0 0,0 0,0 1,0 f794ae322b43b3f2
true,false 0,32 65,0 c186824036044abd
true,false 0,21 0,19 22,0 b17b6a7e653f6752
false,false 7,0 5a38c35a8e75b27b
true,false 0,3 6,0 25515d8453eb181c
true,false 0,20 7,0 9cf30e90f4c77136
false,true 55,0 13,0 80a5502803660a45
true,true 0,0 0,0 0,0 1,0 ca66b9c24277bfd0
true,true 0,0 1,0 a7b5b478dbc58d60
true,true 1,0 6caee70d408b5fd2
false,true 6,0 1,0 2dcce5f938c74349
true,false 0,7 23,0 4bee57ef03461a5b
false,false 5,30 25,0 5cead73e99d7f807
false,true 9,0 47168d4c3334a8b5
true,false 5,0 869c7d5fc19f8e69
false,false 22,0 61307de5d6da93fd
false,false 27,27 36,0 565df438ab662b7d
false,false 9,5 44,25 17,0 25b182aa7ae16af2
false,true 4,0 f6dd51c3d8bf7c71
true,true 0,0 1,0 9ae0345694919bc2
false,true 8,0 12,0 570a4dcdca17eaa5
false,true 22,0 17,0 5,0 94a0a757a1c20c46
true,false 0,122 0,66 0,6 3,0 6fdf61dcadfe63ca
false,false 1,0 f7c97bcfcf063290
false,false 0,0 e0f2cf784e7e5f10
false,true 14,0 8,0 c6b50ae9e3661b89
false,false 22,40 13,0 e9a950988e27ebf2
false,false 43,50 35,33 11,0 7ecdaec7f10654b9
false,false 5,0 37d2e6551db50fad
true,true 0,0 0,0 0,0 1,0 8a33550062187073
true,false 0,6 10,0 e1aed37f09465add
false,true 10,0 7,0 0545746cc9e8ea72
false,true 10,0 34,0 22,0 6cffc6b21b922b7c
true,false 4,0 89648685f94f0ac7
true,true 0,0 0,0 1,0 4b845b47ee5397bc
false,true 11,0 12,0 3c0a35148cb7f3bf
true,true 0,0 0,0 0,0 1,0 047ada45cc6941b6
true,false 0,36 0,31 24,0 23cc0875b14bbdcc
true,true 0,0 db07bd1bc239b73a
false,true 6,0 7,0 f8c85e67f855706d
false,true 28,0 2,0 b2e2e883b424b7ce
false,true 7,0 11,0 0484df50b19188cb
false,true 31,0 6,0 12,0 2,0 3fe89b433d300bc0
true,true 0,0 0,0 1,0 e5655cf7a50f0032
true,false 0,17 4,0 06dc0f1dade6f990
false,false 9,12 6,0 51f3c8a7c7b69759
true,true 0,0 0,0 0,0 0,0 1,0 c6577dcf9c53397e
true,true 0,0 0,0 0,0 0,0 1,0 34748454be16321a
false,false 7,0 b514316df7784914
false,false 10,0 ce444b7650fd2577
false,false 63,0 04df779fcfbeae71
false,true 13,0 16,0 9ae74dcc2a61c456
false,true 11,0 6,0 10,0 62b237d73feb65f9
false,true 4,0 b933cec32264880d
false,true 8,0 06e9d96c2bd54802
false,false 25,0 a96107ca5faa0958
false,false 17,0 009afaafbbc165ee
true,true 0,0 0,0 0,0 0,0 0,0 1,0 5afb79adfa038913
false,true 7,0 44d0c6a7a4835de2
true,true 0,0 0,0 1,0 ccc538ab2ebf5c09
false,false 14,3 6,0 6dfa65dfcd2c2f58
true,true 0,0 0,0 0,0 1,0 134e369bdd545384
false,false 25,8 46,4 4,0 263111270d254aa0
true,false 3,0 63cd8cc6a99d8fe6
true,true 0,0 0,0 0,0 1,0 71756d4959959f29
true,true 0,0 0,0 0,0 1,0 107ef65bec39c4e3
false,false 7,11 25,0 6490443f4b782ee6
false,true 10,0 6,0 2,0 218d9293786cf097
false,true 5,0 873d937a47a99fe6
false,false 2,0 619bf68ebc9e6c3f
true,true 0,0 0,0 0,0 1,0 899d39c10e1c3d98
true,false 0,125 28,0 8e884d13be5146c4
false,false 34,7 12,48 20,0 63c2edb26e011025
false,true 0,0 e0f2cf784e7e5f10
true,false 0,9 4,0 afcec80b077824d4
false,true 10,0 14,0 5c7207841423c187
false,true 33,0 12,0 5,0 79cba2c205ea4060
false,true 14,0 97,0 10,0 24fe1998e4abef76
true,true 0,0 0,0 1,0 971b257d552fa40a
false,true 17,0 0fc33c8c3c0e2e22
false,true 14,0 17,0 b1c3c303230a4f33
false,true 10,0 48,0 3,0 5daf77b4337bc2b4
true,true 0,0 0,0 0,0 0,0 1,0 4872ad4644ba6dd3
true,true 0,0 0,0 1,0 7d5395db79e19cbf
false,false 16,7 3,0 5253d72771003d41
true,true 0,0 0,0 0,0 1,0 55c4ada0f411d58c
true,true 0,0 0,0 0,0 1,0 e744262c3b265a99
true,true 0,0 0,0 0,0 0,0 1,0 7fb1d08d360c1880
false,false 4,0 af70a0e08d42a173
false,false 27,0 5e981ed98a3265fd
false,false 39,0 7850f5916e14d52a
true,true 0,0 0,0 1,0 cbf2fdbd91f80c67
false,false 48,55 8,55 6,0 8ab118c8982506b7
false,true 2,0 746e0e9047f16388
false,true 8,0 e195a80a5bc16bde
true,true 0,0 0,0 1,0 1e84734b0f0ef9d3
true,true 0,0 0,0 0,0 1,0 6111a48d3f3d18dc
false,false 8,15 22,13 19,0 e4d98c7f0f6cf025
false,true 7,0 f5762f98a4820fdc
false,false 21,0 8413881f545cc1d0
true,false 0,7 11,0 75e69b1f258cc9c1
true,false 0,8 15,0 e815bf597df36325
false,true 10,0 8,0 9,0 3,0 51cfbd10a204d35b
false,false 8,0 25af6ceb54d65cad
false,true 20,0 cd2f2496b025d3c9
true,true 0,0 0,0 0,0 1,0 2dab22a65f7df88c
false,false 93,0 30d9321c87c72393
false,true 17,0 64,0 1368b403da3afb21
true,true 0,0 0,0 1,0 f5af2f99a30cc535
false,false 10,5 4,0 4e5d1d890ebba3e6
true,true 0,0 0,0 0,0 0,0 1,0 5c30db91c7bcec9a
true,false 37,0 1c59c8ed68b52190
true,true 0,0 0,0 0,0 0,0 0,0 1,0 45c50335bd28471b
false,false 8,0 72b4d54651ab2d4c
false,true 16,0 2,0 af7d9377c31d0d47
true,true 0,0 0,0 0,0 1,0 4cf30f631a10e23f
true,false 0,13 0,8 5,0 afb1d6c2791ba319
false,false 11,8 33,4 13,0 4190ddab2cc5af73
false,false 9,0 0eb59db50386052d
false,false 3,0 2ce55adce52c7a02
false,false 84,0 f458e7c51a49822d
true,false 0,38 28,0 8746c7d71b8197b9
false,false 9,8 16,18 20,0 caf4d6a65a8016e9
true,false 2,0 ee5009e49df90566
false,false 20,0 c95bbd451ff8079c
true,false 29,0 f54e2989c5a63ff7
false,false 3,0 a4b17d8883c687da
true,false 0,95 0,23 9,0 8a6257ac8a2191ca
true,true 0,0 0,0 1,0 b92bc4f3c68abe93
false,false 14,0 cc7be10deede4555
true,true 0,0 0,0 0,0 1,0 96572ddba6741f68
false,true 42,0 5c8c0c236ac1452c
false,true 76,0 26,0 2,0 473cdb4f7c4a80c5
false,true 1,0 eec790cc9050d680
false,true 21,0 7865740add2f131f
true,false 42,0 83e40612a4188855
true,true 0,0 0,0 0,0 0,0 1,0 a0f04e2c84a299ff
true,true 0,0 0,0 0,0 0,0 1,0 1e77b64bf4d5b107
false,false 9,0 b05c9cecebef0dc4
true,false 6,0 be92b34c020c514c
true,false 0,4 11,0 80f38d8136747ddf
true,false 0,14 0,10 9,0 f14ba73e64134adf
false,true 29,0 71,0 3,0 74e2a46a0c98d800
true,false 1,0 6d88cfc93307339e
true,false 0,3 7,0 2167c6408a73ac09
true,false 0,16 8,0 98cde937fff92d66
true,false 0,19 27,0 3b860fb4eee3c43b
true,false 0,12 15,0 d62318b011b0c429
false,true 8,0 392ffae96096179b
true,false 1,0 71c802e1670a3338
true,true 0,0 0,0 0,0 1,0 17e353bfd38341cd
false,false 10,7 13,7 6,0 a4585063ab6ea3de
false,true 21,0 76b4a80358516530
false,true 2,0 7ad839f918275461
true,true 0,0 0,0 0,0 1,0 16fe6523cb34da80
false,true 10,0 7,0 2,0 7e4945044a493520
true,false 0,22 2,0 1ad892984c359b68
false,true 9,0 24,0 8,0 ae46631b9c524f4a
false,true 2,0 173f9b194a05d8a8
false,false 23,0 046533dcfe3e0e3d
false,false 26,0 c67744d0b55f4807
true,false 0,30 0,6 2,0 5b92caeffb761865
true,true 0,0 0,0 0,0 0,0 1,0 1774b4ea12443d7a
true,true 1,0 f1b3a6792fd95815
false,false 9,0 72d4e2e5a5317222
true,true 0,0 0,0 0,0 1,0 32d27ffa2e230f99
false,true 27,0 29,0 1,0 eee58fdfb58df78f
true,true 0,0 0,0 0,0 1,0 7b7ed93df8824e87
true,true 0,0 1,0 b550c16d0ee7a148
false,true 12,0 6,0 a3f49af20ca5809c
true,false 0,10 9,0 278c38ecc7c63408
true,true 0,0 0,0 0,0 1,0 4e407e8381e9fc27
true,true 0,0 0,0 1,0 e81578411683205a
false,false 5,0 8e73b374262e44bd
false,false 23,0 385a592a69bc818b
true,false 0,4 3,0 6c0f8e1a4f9e1d4c
true,true 0,0 0,0 0,0 0,0 1,0 add074d4c6173dd7
true,true 0,0 0,0 0,0 1,0 8f38b389096b113c
true,false 6,0 74bd3faa2ad706c6
false,false 19,0 d58476bf50c15aaa
true,true 0,0 0,0 0,0 1,0 2920623e52b5d92e
false,false 43,44 10,0 eff0a9bd8e17c55d
false,true 15,0 102,0 7,0 b2128d4d5122055f
true,true 0,0 1,0 6ed948eede1f1740
true,true 0,0 0,0 0,0 1,0 d4ea75a8f8a2a24b
true,false 11,0 ff0b717db396baea
false,true 10,0 10,0 9,0 0d9d6e365c7b8623
false,true 64,0 6,0 28,0 77d4e5efe96c1b3c
false,false 8,0 c8d87c644698b9f9
true,true 0,0 0,0 1,0 481fe736b2ff75c4
true,true 0,0 0,0 0,0 1,0 0d1a99bed77e5bf5
true,true 0,0 0,0 0,0 0,0 1,0 9adf4af7f35bf2d7
true,false 0,10 0,49 4,0 b15dba2dd1245fba
true,true 0,0 0,0 1,0 de5ec2b2f0f7b933
false,false 23,0 ca8db247a98a2947
true,false 0,28 2,0 1eb06c7160030777
true,false 33,0 1a1771dfc71e63d3
false,true 78,0 90,0 2,0 0587b5a9b90d42d2
true,true 1,0 b90ecb98c78bcba7
true,false 9,0 543a885b0c03eea7
false,true 6,0 4,0 4281c8ca42dc700c
true,false 0,9 12,0 c0061306245a1514
false,false 50,35 31,8 6,0 857919fb0369e0c2
";
