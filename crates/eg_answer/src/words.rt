// How many words level 2 keeps (docs/FORMATS.md, "Words of level 2").
ghost use Rattle.std.specs.Prelude.{◌≡◌, [], ◌∷◌};
ghost use Rattle.eg_answer.specs.declared.formulas.TheConstants.{EXCESS_BIT};

/// How many words level 2 has (docs/FORMATS.md, "Words of level 2"). Each is stored with its complement.
pub const MIRRORED_WORDS: u8 = 16;

/// How many words level 2 stores, numbered from 0 on: first its words, then their complements in the same
/// order.
pub const STORED_WORDS: u8 = 2 * MIRRORED_WORDS;

/// Does nothing when it runs. Its contract says in numbers how many words level 2 has, how many it stores,
/// and which bit of the excess word its debouncer is fed with (docs/FORMATS.md, "Words of level 2").
pub fn words_in_numbers()
    ensures counts { MIRRORED_WORDS ∷ STORED_WORDS ∷ EXCESS_BIT ∷ [] ≡ 16 ∷ 32 ∷ 1 ∷ [] }
{}
