// The first word of a command line that is not UTF-8: files are opened by names in UTF-8 alone. Tested alone.

use std::alloc::AllocError;
use std::env::FillError;
use std::rt::Env;
use std::str;

/// So many bytes of a word are looked at; a longer one names no file.
const LONGEST: usize = 4096;

/// The first word that is not UTF-8, with marks in the place of what is not, if there is one.
pub fn word_at_fault<R: Env + AllocGlobal>(rt: &R) -> Result<Option<String>, AllocError> {
    let mut word = [0u8; LONGEST];
    'words: for k in 0..usize::MAX {
        match rt.arg(k, &mut word) {
            Ok(size) => {
                let text = word.get(..size).unwrap_or(&[]);
                if str::from_utf8(text).is_err() {
                    return Ok(Some(String::from_utf8_lossy(rt.alloc(), text)?));
                }
            }
            Err(FillError::TooLong) => {}
            Err(FillError::NotPresent) => return Ok(None),
        }
    }
    Ok(None)
}
