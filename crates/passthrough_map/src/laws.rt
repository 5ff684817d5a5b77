//! Laws of the definitions that the contracts of this crate use. Each function has an empty body, and its clause is the
//! law.

ghost use Rattle.std.specs.Prelude.{◌≡◌, ◌^◌, ◌<◌, ℕ, List, [], Some, IsSome, fold};
ghost use Rattle.std.specs.Hash.{u64};
ghost use Rattle.std.specs.Map.{set_value};
ghost use Rattle.passthrough_map.specs.FiniteMap.{value_at, Sets};
ghost use Rattle.passthrough_map.specs.PassthroughHasher.{overwrite_low};

/// A [`U64DirectHasher`](crate::passthrough_hasher::U64DirectHasher) that is fed a `u64` returns that number. Writing
/// no bytes changes nothing.
pub fn passthrough_hasher_hands_numbers_on()
    ensures number { (state number : ℕ) → number < 2 ^ 64
        → fold overwrite_low state (u64 number) ≡ number }
    ensures none { (state : ℕ) → state < 2 ^ 64 → overwrite_low state [] ≡ state }
{}

/// A value that is written through a reference from
/// [`get_mut`](crate::passthrough_hashmap::PassThroughHashMap::get_mut) is found at that key. Every other key has what
/// it had.
pub fn written_value_is_found<Key: Eq, Val>()
    ensures found { (entries : List (Key × Val)) (key : Key) (value : Val)
        → IsSome (value_at Key.eq entries key)
        → value_at Key.eq (set_value (Key.eq key) entries value) key ≡ Some value }
    ensures sets { (entries : List (Key × Val)) (key : Key) (value : Val)
        → IsSome (value_at Key.eq entries key)
        → Sets Key.eq entries key (Some value) (set_value (Key.eq key) entries value) }
{}
