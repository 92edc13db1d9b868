//! The calls of a surface, which is over bytes or over texts.

use crate::call::{Expander, Form, Search};
use crate::question::Query;
use crate::told::Answer;
use regex_bites::Error;

/// A regex with the memory of its searches. Each method asks one kind of search by the call that the form names, and adds the
/// answer.
pub trait Surface: Sized {
    /// Builds the regex of a row. It has the memory of the row before if that fits, and else its own.
    fn build(query: &Query<'_>, kept: &mut Option<Self>) -> Result<Self, Error>;

    /// Asks whether there is a match.
    fn is_match(&mut self, query: &Query<'_>, form: Form, answer: &mut Answer);

    /// Asks for the least end of a match.
    fn shortest(&mut self, query: &Query<'_>, form: Form, answer: &mut Answer);

    /// Asks for a match.
    fn find(&mut self, query: &Query<'_>, form: Form, answer: &mut Answer);

    /// Asks for the groups of a match.
    fn captures(&mut self, query: &Query<'_>, form: Form, answer: &mut Answer);

    /// Asks for the groups of a match, which are read into locations.
    fn captures_read(&mut self, query: &Query<'_>, form: Form, answer: &mut Answer);

    /// Asks for all matches. An iterator is asked for some of them and dropped, before another is asked for all.
    fn find_iter(&mut self, query: &Query<'_>, answer: &mut Answer);

    /// Asks for the groups of all matches.
    fn captures_iter(&mut self, query: &Query<'_>, answer: &mut Answer);

    /// Asks for the pieces between matches.
    fn split(&mut self, query: &Query<'_>, answer: &mut Answer);

    /// Asks for the first pieces, and the rest as the last one.
    fn splitn(&mut self, query: &Query<'_>, answer: &mut Answer);

    /// Asks for the group of the first match whose number or name the template is.
    fn group(&mut self, query: &Query<'_>, answer: &mut Answer);

    /// Asks for the first match and its first groups that participated, as many as `static_captures_len` says.
    fn extract(&mut self, query: &Query<'_>, answer: &mut Answer);

    /// Asks what the template stands for at the first match. It is appended to a byte that stays.
    fn expand(&mut self, query: &Query<'_>, by: Expander, answer: &mut Answer);

    /// Replaces by the template, as the search says.
    fn replace(&mut self, query: &Query<'_>, search: Search, form: Form, answer: &mut Answer);

    /// Replaces each match by its number, from 1 on, by a replacer that may be lent. The matches that it has served must be the first
    /// ones in order, also if memory is refused; else the answer says so.
    fn replace_count(&mut self, query: &Query<'_>, form: Form, is_lent: bool, answer: &mut Answer);
}

/// Adds the answer of one call.
pub fn push_answer<S: Surface>(
    surface: &mut S,
    query: &Query<'_>,
    search: Search,
    form: Form,
    answer: &mut Answer,
) {
    match search {
        Search::Is => surface.is_match(query, form, answer),
        Search::Shortest => surface.shortest(query, form, answer),
        Search::FindAt => surface.find(query, form, answer),
        Search::CapturesAt => surface.captures(query, form, answer),
        Search::CapturesRead => surface.captures_read(query, form, answer),
        Search::FindIter => surface.find_iter(query, answer),
        Search::CapturesIter => surface.captures_iter(query, answer),
        Search::Split => surface.split(query, answer),
        Search::SplitN => surface.splitn(query, answer),
        Search::Group => surface.group(query, answer),
        Search::Extract => surface.extract(query, answer),
        Search::Expand(by) => surface.expand(query, by, answer),
        Search::ReplaceCount => surface.replace_count(query, form, false, answer),
        Search::ReplaceServed => surface.replace_count(query, Form::Whole, true, answer),
        Search::Replace | Search::ReplaceOwned | Search::ReplaceLiteral | Search::ReplaceFixed => {
            surface.replace(query, search, form, answer)
        }
    }
}
