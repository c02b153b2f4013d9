// Views as texts, to compare them with what is written by hand: a reference as `#` and its last digit,
// `$` for none, a list in parentheses, and a space between attributes.
use sb_list::Listed;
use sb_schema::{TypedList, ViewError};
use std::alloc::AllocError;

pub(crate) trait Show {
    fn show(&self, text: &mut Vec<u8>) -> Result<(), AllocError>;
}

impl Show for u32 {
    fn show(&self, text: &mut Vec<u8>) -> Result<(), AllocError> {
        text.push(b'#')?;
        text.push(b'0' + (*self % 10) as u8)?;
        Ok(())
    }
}

impl Show for u8 {
    fn show(&self, text: &mut Vec<u8>) -> Result<(), AllocError> {
        text.push(*self)?;
        Ok(())
    }
}

impl<T: Show> Show for Option<T> {
    fn show(&self, text: &mut Vec<u8>) -> Result<(), AllocError> {
        match self {
            Some(value) => value.show(text),
            None => {
                text.push(b'$')?;
                Ok(())
            }
        }
    }
}

impl<T: Show> Show for Listed<T> {
    fn show(&self, text: &mut Vec<u8>) -> Result<(), AllocError> {
        text.push(b'(')?;
        for item in self.as_slice() {
            item.show(text)?;
        }
        text.push(b')')?;
        Ok(())
    }
}

impl Show for TypedList {
    fn show(&self, text: &mut Vec<u8>) -> Result<(), AllocError> {
        self.keyword.show(text)?;
        self.list.show(text)
    }
}

/// An answer: the attributes of a view, or the refusal and the number that it names.
pub(crate) fn tell<V: Show + Drop>(
    text: &mut Vec<u8>,
    answer: Result<V, ViewError>,
) -> Result<(), AllocError> {
    match answer {
        Ok(view) => view.show(text),
        Err(ViewError::Missing(number)) => told(text, b"missing ", number),
        Err(ViewError::Other(number)) => told(text, b"other ", number),
        Err(ViewError::Fields(number)) => told(text, b"fields ", number),
        Err(ViewError::NoMemory) => Err(AllocError),
    }
}

fn told(text: &mut Vec<u8>, why: &[u8], number: u32) -> Result<(), AllocError> {
    text.extend_from_slice(why)?;
    number.show(text)
}
