//! The two lines of output.

ghost use Rattle.std.specs.Prelude.{◌≡◌, ◌++◌, ◌+◌, ◌≤◌, length};
ghost use Rattle.pair_text.specs.Output.{output_text};

use arrayvec::ArrayVec;
use xet_hash::data_hash::MerkleHash;

/// The number of bytes of the two lines.
pub const OUTPUT_LEN: usize = 140;

/// Returns the two lines of a root and a file hash: `xorb <hex>` and `file <hex>`, each with its newline.
pub fn output(root: &MerkleHash, file: &MerkleHash) -> ArrayVec<u8, OUTPUT_LEN>
    ensures { result.items ≡ output_text root.now file.now }
{
    let mut text = ArrayVec::new();
    push_bytes(&mut text, b"xorb ");
    push_bytes(&mut text, &root.hex_digits());
    push_bytes(&mut text, b"\nfile ");
    push_bytes(&mut text, &file.hex_digits());
    push_bytes(&mut text, b"\n");
    text
}

fn push_bytes(text: &mut ArrayVec<u8, OUTPUT_LEN>, bytes: &[u8])
    requires { length text.old.items + length bytes.now ≤ OUTPUT_LEN }
    ensures { text.new.items ≡ text.old.items ++ bytes.now }
{
    text.try_extend_from_slice(bytes).unwrap();
}
