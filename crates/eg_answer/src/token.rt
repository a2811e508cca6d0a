// The token that the modules of level 2 move.
ghost use Rattle.std.specs.Prelude.{◌≡◌, ◌<◌};
ghost use Rattle.eg_answer.specs.declared.modules.TheConstants.{MODULES};
ghost use Rattle.eg_answer.specs.Token.{next_token_of, TokenLaw};

/// The token as the module of level 2 of this number (0 to 7) leaves it (docs/CONCEPT.md, "Questions and
/// answers"). Module `i` turns `2^i - 1` into `2^(i+1) - 1`; any other token is lost, and becomes 0x8000.
pub fn next_token(token: u16, number: u8) -> u16
    requires { number < MODULES }
    ensures { result ≡ next_token_of token number }
{
    let before = (1u16 << number) - 1;
    if token == before {
        2 * before + 1
    } else {
        0x8000
    }
}

/// Does nothing when it runs. Its contract is a law: a token that starts at 0 ends at 255 exactly if all
/// eight modules moved it, in their order (docs/CONCEPT.md, "Questions and answers").
pub fn token_counts_modules()
    ensures { TokenLaw }
{}
