use std::alloc::AllocError;
use std::rt::Env;
use std::{env, io};

/// The words behind the program's name, or none where one of them isn't UTF-8: such a word is in no
/// form.
pub fn words_of<R: Env + AllocGlobal>(rt: &R) -> Result<Vec<String>, AllocError> {
    match read_words(rt) {
        Ok(words) => Ok(words),
        Err(error) => if error.kind() == io::ErrorKind::OutOfMemory {
            Err(AllocError)
        } else {
            Ok(Vec::new(rt.alloc()))
        },
    }
}

fn read_words<R: Env + AllocGlobal>(rt: &R) -> io::Result<Vec<String>> {
    let mut words = env::args(rt)?;
    drop(words.next());
    Ok(words.collect(rt.alloc())?)
}
