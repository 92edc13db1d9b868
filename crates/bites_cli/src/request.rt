//! What the words of the command line ask for.

use crate::fault::Fault;

/// What is done with the pattern and the haystack.
#[derive(Clone, Copy)]
pub(crate) enum Task<'w> {
    Is,
    Find,
    Captures,
    Split,
    Replace(&'w str),
}

/// A pattern, and what is done with it.
#[derive(Clone, Copy)]
pub(crate) struct Request<'w> {
    pub(crate) pattern: &'w str,
    pub(crate) task: Task<'w>,
}

impl<'w> Request<'w> {
    /// Reads the words after the program's name. The fault is another first word, or another number of words.
    pub(crate) fn read(words: &'w [String]) -> Result<Request<'w>, Fault> {
        match words {
            [name, pattern] => Request::without_template(name.as_str(), pattern.as_str()),
            [name, pattern, template] if name.as_str() == "replace" => Ok(Request {
                pattern: pattern.as_str(),
                task: Task::Replace(template.as_str()),
            }),
            _ => Err(Fault::Usage),
        }
    }

    fn without_template(name: &str, pattern: &'w str) -> Result<Request<'w>, Fault> {
        let task = match name {
            "is" => Task::Is,
            "find" => Task::Find,
            "captures" => Task::Captures,
            "split" => Task::Split,
            _ => return Err(Fault::Usage),
        };
        Ok(Request { pattern, task })
    }
}
