// The words of a line, and numbers.
use crate::faults::Fault;
use std::alloc::{AllocError, Global};

// The library's is_ascii_whitespace would take a form feed too.
fn is_blank(byte: &u8) -> bool {
    matches!(byte, b' ' | b'\t' | b'\r')
}

// The first words of a line, four at most: they tell a call, and that one of three words has too many. A line may be as long as memory, so its words
// are not held.
pub fn first_words(heap: Global, line: &[u8]) -> Result<Vec<&[u8]>, AllocError> {
    line.split(is_blank)
        .filter(|word| !word.is_empty())
        .take(4)
        .collect(heap)
}

// Puts what each word behind the first `skipped` says behind what is kept, and tells how many these are. Where one says nothing, none is kept.
pub(crate) fn keep<T: Drop, F: Fn(&[u8]) -> Result<T, Fault>>(
    line: &[u8],
    skipped: usize,
    read: F,
    kept: &mut Vec<T>,
) -> Result<usize, Fault>
    requires { F.IsAlwaysCallable read }
{
    let start = kept.len();
    for word in line
        .split(is_blank)
        .filter(|word| !word.is_empty())
        .skip(skipped)
    {
        match read(word) {
            Ok(said) => kept.push(said)?,
            Err(fault) => {
                kept.truncate(start);
                return Err(fault);
            }
        }
    }
    Ok(kept.len().saturating_sub(start))
}

fn digit(byte: u8) -> Option<usize> {
    match byte {
        b'0'..=b'9' => Some(usize::from(byte - b'0')),
        _ => None,
    }
}

// A number in decimal of at most 18 digits. The library's parse would take a sign too, and zeros without end.
pub fn number<N: TryFrom<usize>>(word: &[u8]) -> Result<N, Fault>
where
    N::Error: Drop,
{
    if word.is_empty() || word.len() > 18 {
        return Err(Fault::NoCall);
    }
    let mut value = 0usize;
    for byte in word {
        let digit = digit(*byte).ok_or(Fault::NoCall)?;
        value = value.wrapping_mul(10).wrapping_add(digit);
    }
    N::try_from(value).map_err(|_| Fault::NoCall)
}
