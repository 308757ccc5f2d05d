ghost use Rattle.std.specs.Prelude.{◌≡◌, ◌<◌, length, IfErr};
ghost use Rattle.nf_vectors.specs.Words.{code_point};
ghost use Rattle.nf_vectors.specs.Judgement.{IsOfLine};

use crate::fault::VectorKind;

/// The code point that a word of 1 to 6 hexadecimal digits is.
pub(crate) fn code_point(word: &[u8]) -> Result<char, VectorKind>
    ensures value { result ≡ code_point word.now }
    ensures faults { IfErr result IsOfLine }
{
    if word.is_empty() || word.len() > 6 {
        return Err(VectorKind::Hex);
    }
    let mut value: u32 = 0;
    for byte in word {
        let Some(digit) = char::from(*byte).to_digit(16) else {
            return Err(VectorKind::Hex);
        };
        value = 16 * value + digit;
    }
    match char::from_u32(value) {
        Some(c) => Ok(c),
        None => Err(VectorKind::Scalar),
    }
}
