//! Compares keyed BLAKE3 with known hashes, whole and in pieces.

use crate::recursive_reference::{hash_words, words_of};
use std::process::Abort;
use xet_hash::blake3::{Hasher, keyed_hash};

// Returns the bytes from 0 to 250, repeated.
fn message<const N: usize>() -> [u8; N] {
    let mut message = [0; N];
    let mut next = 0u8;
    for byte in message.iter_mut() {
        *byte = next;
        next = if next == 250 { 0 } else { next.wrapping_add(1) };
    }
    message
}

#[test]
fn two_pieces_are_hashed_as_their_whole(rt: HostRuntime) {
    let key = *b"whats the Elvish word for friend";
    let message = message::<2049>();
    for place in [1023, 1024, 1025] {
        let (first, second) = message.split_at(place);
        let mut hasher = Hasher::new_keyed(&key);
        for piece in [first, second] {
            assert!(rt; hasher.has_room(piece.len()));
            hasher.update(piece);
        }
        let hash = hasher.finalize();
        assert!(rt; hash == keyed_hash(&key, &message), "{place}");
        assert!(rt;
            words_of(&hash) == hash_words(&words_of(&key), &message),
            "{place}"
        );
    }
}

// Each row has the length of a message and its hash under the key 0, 1, .., 31.
const HASHES: &str = "0 73492b19995d71cdb1e9d74decc09809eb732f1b00bc95c27cb15f9dd4d6478f
1 d08b45c6b127ee94f3f8527a0b82a5f80be1695a0eaec6022e772c0eb95a7e8b
63 e471df92f6f7dee100138af7da29695906b0dc34ccde2142a730dd4ebcbc09cc
64 cfaf838ff320e0d87301dcba02b1a4bb397d65119f57403df2817a51d4025f9b
65 d8a45528bfa93a0d9b7bf4c840b68f64af0b9ad3d0bbd6c1421c2a4cf1cdf3b4
127 85f533d496cd9c62af45735983026a3f343afd1b3d8ef440991180f9945e46d6
128 fe43a847dfccdfa5f070664fb8b51d7b906341ff81ac4adafbf6a3ffac564def
1023 da1f18069871512af22af9f13dc005800dfd52c55f42753b5ae718086fe2ee44
1024 f45a9249a627fdf1fcf13c0e6376f6a9a9b2056d6e1b5693a4b119a3453665f9
1025 82223147a9b804a0c3f9a921b8d8aee250d1a51bb76be72152e6d5e8f27349b3
2048 636bfa717d4f9fc3e59da9b2e5cce6a2b78eb70469c0fce49da38b5419892423
2049 5442eec85e3fd173dcff07c39cd8cff9689f17224471e655618ed728cf03b056
3072 66315151ac08f5cdf077f76e1b5f584a4da7b48a75036de5729be38dac835fb7
3073 66eabf3a0a1a262221ee9eed633621a5065e4e73d098277c7de4162559edb9b4
4095 00ae38b394ea655a2a268084af0e2543eac4a5a4ee61778ec6bdae88b81f03e9
4096 e8c6e859e0480c4b062457defd04d2f4303b6cc280a0fe080ec5c4346a171937
4097 a3b7fe277011b5efcde8a33d90b0edb88c29e73831f34d9b02aebab51c98e2a6
5120 8bb4f2ab4db1d207713b4240105ec14d57452bc53073c480f8377279fa959a95
5121 f5e92bc50eb02296aad75a7fb1faf6bf95c0f3eccfaaed506e2448df16b45c0b
6144 40b1e813ec046e44a9818020f1e04cdc0e849d86636492191229f3f7257a636a
7168 fabe20ee334b76c0b7fe08a7592829f8493c150393c8532f9505d27a22574fab
7169 accec9095f0b3bed3223a28fa90c84f8c7b4cd5570331664b4ecc52041468ade
8191 c0d7ec24ed861b344c89db577b89dc90b9de9ca50766165f5d0e4b66c0e2ffb4
8192 c659141d9d7e6efafd2f274d4307b9ab3369f058c6d03cd5ba17d4518d77bd49
8193 c666ccf5fa240c07a9d0a6b8ae92c67668b482e7c2751fb5e1d9d7078fa9637e
9216 4c0092a5f8dfc813aad4346f14b0b249d2ac053d936ee9372c15d701cd2c9b33
12288 707b57bfb81179f30e7d2a9c296c4d386286c0e780c8a2e8f4736e86fd73a2bd
12289 f2b209513b02239a4567f4529643096770a1826f835d0e3bde542b25c3c1f5b9
16384 8880ce020ab0459420eee7e95f173d8a0d55c9b499d857880b0c661eb4162bae
16385 4343c3dd9cc572142984258a08652588589d1683adf926283c37681508a138fe
17408 6e640586efc979f6bbdf1c799bb1fa37f31daebcb1ed55796a2e4248f39d5663
24576 a7f60d41d57f3ed553fa2bf5522f3c3bff8e4b729047175d682c8eb61d3da4f8
28672 17dbee74c0d98bc69088d639267d0eb27c2ab75fc6bbe72e316166479ad905d0
31744 55253f057bce59e7811fea47ac0e72751ca12c40c4a5b8f3c42e54daa5073272
32768 a4b14842316ac86f46cd4c68ee7cb03190ca5e6bc2c50d0aac7fd7ca76891035
32769 87107d53b5c78806aee89afbd11e77f62df4573527de70a75193c9710d619d72
36864 559ece084512391afd30d5853bcda4647ce84c5c56de1ebd8668fcd610464b0a
49152 2f433f2d5d5795eb1d331d60d91e6eceebb78ad17c749593827b4261cb73e771
65535 c4a758e5f0cd41e8bc3d2689533c3fcf9575daee607c632f85e744f5e825ffff
65536 ca2a089711002f4987989e5fab9c11ca9940e94ee258ea062d2bcb402de11ca9
65537 77630e1400f2542f6c837ad042df8c5299643cfadbba280355f628f1e966b62a
69632 1d3669f5d1ea80d2ac7aae820afa45ecc559f6114f2a2dda4db9e23ce1b2d7b7
98304 a2869974a41792afc77411f104422482ca99f558a4f10cdad62091b73b324d50
131072 0eed93ee0e31b0d5ba7c0feaf30758ac652cf202ed65e63a380a11369e95a086
131073 9536698737c96a47a16810f8ebf13eb2c2cb527f5ef8c309ec9c852d29dc0bc6
";

// Returns the hash of a message that is fed in pieces of two lengths in turn. The last one may be shorter.
fn hash_in_pieces(key: &[u8; 32], message: &[u8], (first, second): (usize, usize)) -> [u8; 32] {
    let mut hasher = Hasher::new_keyed(key);
    for both in message.chunks(first.saturating_add(second).max(1)) {
        let (front, back) = both.split_at(first.min(both.len()));
        for piece in [front, back] {
            if hasher.has_room(piece.len()) {
                hasher.update(piece);
            }
        }
    }
    hasher.finalize()
}

// The lengths of the pieces that a message is fed in.
const LENGTHS: [(usize, usize); 11] = [
    (1, 1),
    (1, 1024),
    (7, 7),
    (64, 64),
    (1000, 1000),
    (1024, 1024),
    (1025, 1025),
    (4097, 4097),
    (16384, 16384),
    (65536, 65536),
    (usize::MAX, 0),
];

// A message is fed in at most about so many pieces, since each is a call. The worked examples feed longer ones byte by byte.
const MOST_PIECES: usize = 10_000;

// Returns whether a message has a hash: whole, and fed in pieces.
fn has_hash(key: &[u8; 32], message: &[u8], hash: &[u8; 32]) -> bool {
    let mut has_hash = keyed_hash(key, message) == *hash;
    for lengths in LENGTHS {
        let is_fed = message.len() <= lengths.0.max(lengths.1).saturating_mul(MOST_PIECES);
        has_hash = has_hash && (!is_fed || hash_in_pieces(key, message, lengths) == *hash);
    }
    has_hash
}

// Returns the length of a row's message, and its hash.
fn read_row(rt: &impl Abort, row: &str) -> (usize, [u8; 32]) {
    let (length, text) = row.split_once(' ').expect(rt, "a hash");
    let mut hash = [0; 32];
    hex::decode_to_slice(text, &mut hash).expect(rt, "hex digits");
    (length.parse().expect(rt, "a number"), hash)
}

#[test]
fn has_the_known_hashes(rt: HostRuntime) {
    let (key, message) = (message::<32>(), message::<131073>());
    for row in HASHES.lines() {
        let (length, hash) = read_row(&rt, row);
        let message = message.get(..length).expect(&rt, "a message");
        assert!(rt; has_hash(&key, message, &hash), "{length}");
        assert!(rt;
            length == 0 || hash_words(&words_of(&key), message) == words_of(&hash),
            "{length}"
        );
    }
    assert!(rt; HASHES.lines().count() == 45);
}
