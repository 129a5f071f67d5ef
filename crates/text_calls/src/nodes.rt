// The nodes that are open after some lines of a list.
use crate::line;
use crate::verbs::Verb;
use std::alloc::{AllocError, Global};
use std::fmt;
use std::fmt::{Display, Formatter, Write};

// The first lines of a list, so many. Each is a call that was accepted, or no call.
#[derive(Clone, Copy)]
pub struct Lines<'a> {
    pub list: &'a [u8],
    pub count: usize,
}

// The names of the open nodes, outermost first.
#[derive(Drop)]
pub struct Path<'a> {
    names: Vec<&'a [u8]>,
}

// A name that the writer took, so it is ASCII.
#[derive(Clone, Copy)]
pub struct Name<'a>(pub &'a [u8]);

impl Display for Name<'_> {
    fn fmt<W: Write>(&self, f: &mut Formatter<W>) -> fmt::Result {
        for b in self.0 {
            f.write_char(char::from(*b))?;
        }
        Ok(())
    }
}

// A slash before each name. A root without a name is a slash alone, and adds nothing to the paths below it.
impl Display for Path<'_> {
    fn fmt<W: Write>(&self, f: &mut Formatter<W>) -> fmt::Result {
        let alone = self.names.len() == 1;
        for (k, name) in self.names.iter().enumerate() {
            if 0 < k || !name.is_empty() || alone {
                f.write_str("/")?;
            }
            Name(name).fmt(f)?;
        }
        Ok(())
    }
}

// The name of the property that a line gives, if it gives one.
fn property(line: &[u8]) -> Option<&[u8]> {
    let (word, text) = line::head(line)?;
    match Verb::of(word)? {
        Verb::Phandle => Some(word),
        Verb::Property(_) => Some(line::name(text)?.0),
        _ => None,
    }
}

impl<'a> Lines<'a> {
    // The number of the last line that gives a property of this name.
    pub fn given(self, name: &[u8]) -> Option<usize> {
        (1..)
            .zip(self.list.split_inclusive(|b| *b == b'\n').take(self.count))
            .filter(|(_, line)| property(line) == Some(name))
            .map(|(n, _)| n)
            .last()
    }

    // The nodes that are open after the lines.
    pub fn open(self, alloc: Global) -> Result<Path<'a>, AllocError> {
        let mut names = Vec::new(alloc);
        for line in self.list.split_inclusive(|b| *b == b'\n').take(self.count) {
            let Some((word, text)) = line::head(line) else {
                continue;
            };
            match (Verb::of(word), line::name(text)) {
                (Some(Verb::Begin), Some((name, _))) => names.push(name)?,
                (Some(Verb::End), _) => {
                    names.pop();
                }
                _ => {}
            }
        }
        Ok(Path { names })
    }
}
