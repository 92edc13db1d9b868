//! The answers of a regex over bytes to searches.

ghost use Rattle.std.specs.Prelude.{◌≡◌, ◌+◌, ◌∷◌, [], Some};
ghost use Rattle.bites_spec.specs.Counts.{fit_of};
ghost use Rattle.bites_spec.specs.Measure.{static_captures_len};

use crate::call::{Expander, Form, Search};
use crate::items::{push_groups, push_matches, push_pieces, spans_of, taken_of};
use crate::question::Query;
use crate::served::Served;
use crate::surface::Surface;
use crate::told::Answer;
use bites_bytes::bytes::{
    Cache, CaptureLocations, Captures, Match, NoExpand, Regex, Replacer, With,
};
use bites_machine::interpolate;
use regex_bites::Error;
use std::alloc::AllocError;
use std::borrow::CowSlice;

/// A regex over bytes, a cache that fits it, and locations.
#[derive(Drop)]
pub struct Searcher {
    regex: Regex,
    cache: Cache,
    locations: CaptureLocations,
    ghost fits: { cache.fits ≡ fit_of regex.program },
}

// Adds the groups in the locations.
fn push_spans(locations: &CaptureLocations, answer: &mut Answer) {
    for group in 0..locations.len() {
        answer.push_span(locations.get(group));
    }
}

// Adds the groups in the locations, if there is a match. If there is none, group 0 must still be where it was.
fn push_locations(
    locations: &CaptureLocations,
    found: Result<Option<Match<'_>>, AllocError>,
    before: Option<(usize, usize)>,
    answer: &mut Answer,
) {
    match found {
        Ok(None) if locations.get(0) == before => answer.push_none(),
        Ok(_) => push_spans(locations, answer),
        Err(error) => answer.keep(Err(error)),
    }
}

impl Surface for Searcher {
    fn build(query: &Query<'_>, kept: &mut Option<Searcher>) -> Result<Searcher, Error> {
        let regex = query.settings.bytes(query.alloc, query.pattern)?;
        if let Some(
            Searcher {
                regex: _,
                cache,
                locations,
            },
        ) = kept.take()
        {
            if cache.fits(&regex) && locations.fits(&regex) {
                return Ok(Searcher {
                    regex,
                    cache,
                    locations,
                });
            }
        }
        let cache = regex.cache()?;
        let locations = regex.capture_locations()?;
        Ok(Searcher {
            regex,
            cache,
            locations,
        })
    }

    fn is_match(&mut self, query: &Query<'_>, form: Form, answer: &mut Answer) {
        let regex = &self.regex;
        let cache = &mut self.cache;
        let haystack = query.bytes;
        let start = query.start;
        let is_match = match form {
            Form::At => regex.is_match_at(haystack, start),
            Form::Whole => regex.is_match(haystack),
            Form::AtWith => Ok(regex.is_match_at_with(cache, haystack, start)),
            Form::WholeWith => Ok(regex.is_match_with(cache, haystack)),
            Form::Anchored => regex.is_match_anchored_at(haystack, start),
            Form::AnchoredWith => Ok(regex.is_match_anchored_at_with(cache, haystack, start)),
            Form::Full => regex.is_full_match(haystack),
            Form::FullWith => Ok(regex.is_full_match_with(cache, haystack)),
        };
        answer.push_bool(is_match);
    }

    fn shortest(&mut self, query: &Query<'_>, form: Form, answer: &mut Answer) {
        let regex = &self.regex;
        let cache = &mut self.cache;
        let haystack = query.bytes;
        let start = query.start;
        let end = match form {
            Form::At => regex.shortest_match_at(haystack, start),
            Form::AtWith => Ok(regex.shortest_match_at_with(cache, haystack, start)),
            Form::WholeWith => Ok(regex.shortest_match_with(cache, haystack)),
            _ => regex.shortest_match(haystack),
        };
        answer.push_end(end);
    }

    fn find(&mut self, query: &Query<'_>, form: Form, answer: &mut Answer) {
        let regex = &self.regex;
        let cache = &mut self.cache;
        let haystack = query.bytes;
        let start = query.start;
        let found = match form {
            Form::At => regex.find_at(haystack, start),
            Form::AtWith => Ok(regex.find_at_with(cache, haystack, start)),
            Form::WholeWith => Ok(regex.find_with(cache, haystack)),
            Form::Anchored => regex.find_anchored_at(haystack, start),
            Form::AnchoredWith => Ok(regex.find_anchored_at_with(cache, haystack, start)),
            _ => regex.find(haystack),
        };
        answer.push_match(found);
    }

    fn captures(&mut self, query: &Query<'_>, form: Form, answer: &mut Answer) {
        let regex = &self.regex;
        let cache = &mut self.cache;
        let haystack = query.bytes;
        let start = query.start;
        let captures = match form {
            Form::At => regex.captures_at(haystack, start),
            Form::Whole => regex.captures(haystack),
            Form::AtWith => regex.captures_at_with(cache, haystack, start),
            Form::WholeWith => regex.captures_with(cache, haystack),
            Form::Anchored => regex.captures_anchored_at(haystack, start),
            Form::AnchoredWith => regex.captures_anchored_at_with(cache, haystack, start),
            Form::Full => regex.captures_full(haystack),
            Form::FullWith => regex.captures_full_with(cache, haystack),
        };
        match captures {
            Ok(Some(captures)) => push_groups(captures.iter(), answer),
            Ok(None) => answer.push_none(),
            Err(error) => answer.keep(Err(error)),
        }
    }

    // The locations are those of the searcher, or if the call has no cache those of a clone of the regex, which are cloned too.
    fn captures_read(&mut self, query: &Query<'_>, form: Form, answer: &mut Answer) {
        let regex = &self.regex;
        let locations = &mut self.locations;
        if !locations.fits(regex) {
            return answer.push("locations that don't fit");
        }
        let cache = &mut self.cache;
        let haystack = query.bytes;
        let start = query.start;
        let before = locations.get(0);
        let found = match form {
            Form::At => {
                let result = read_by_clones(regex, query, answer);
                return answer.keep(result);
            }
            Form::AtWith => Ok(regex.captures_read_at_with(cache, locations, haystack, start)),
            Form::WholeWith => Ok(regex.captures_read_with(cache, locations, haystack)),
            Form::AnchoredWith => {
                Ok(regex.captures_read_anchored_at_with(cache, locations, haystack, start))
            }
            Form::FullWith => {
                return if regex.captures_read_full_with(cache, locations, haystack) {
                    push_spans(locations, answer)
                } else {
                    answer.push_none()
                };
            }
            _ => regex.captures_read(locations, haystack),
        };
        push_locations(locations, found, before, answer);
    }

    fn find_iter(&mut self, query: &Query<'_>, answer: &mut Answer) {
        let taken = taken_of(self.regex.find_iter(query.bytes), query.times, answer);
        let count = match self.regex.find_iter(query.bytes) {
            Ok(matches) => matches.count(),
            Err(error) => return answer.keep(Err(error)),
        };
        push_matches(self.regex.find_iter(query.bytes), answer);
        answer.push_taken(taken, count.min(query.times));
        answer.push_none();
    }

    fn captures_iter(&mut self, query: &Query<'_>, answer: &mut Answer) {
        match self.regex.captures_iter(query.bytes) {
            Ok(all) => {
                for captures in all {
                    answer.push_next();
                    match captures {
                        Ok(captures) => push_groups(captures.iter(), answer),
                        Err(error) => answer.keep(Err(error)),
                    }
                }
                answer.push_none();
            }
            Err(error) => answer.keep(Err(error)),
        }
    }

    fn split(&mut self, query: &Query<'_>, answer: &mut Answer) {
        let taken = taken_of(self.regex.split(query.bytes), query.times, answer);
        let matches = spans_of(query.alloc, self.regex.find_iter(query.bytes), answer);
        push_pieces(
            query,
            &matches,
            self.regex.split(query.bytes),
            taken,
            answer,
        );
    }

    fn splitn(&mut self, query: &Query<'_>, answer: &mut Answer) {
        let limit = query.limit;
        let taken = taken_of(self.regex.splitn(query.bytes, limit), query.times, answer);
        let matches = spans_of(query.alloc, self.regex.find_iter(query.bytes), answer);
        push_pieces(
            query,
            &matches,
            self.regex.splitn(query.bytes, limit),
            taken,
            answer,
        );
    }

    fn group(&mut self, query: &Query<'_>, answer: &mut Answer) {
        match self.regex.captures(query.bytes) {
            Ok(Some(captures)) => answer.push_group(match query.word.parse() {
                Ok(number) => captures.get(number),
                Err(_) => captures.name(query.word),
            }),
            Ok(None) => answer.push_none(),
            Err(error) => answer.keep(Err(error)),
        }
    }

    fn extract(&mut self, query: &Query<'_>, answer: &mut Answer) {
        match self.regex.static_captures_len() {
            Some(least) if least > 0 => extract_groups(&self.regex, query, least - 1, answer),
            _ => {}
        }
        answer.push_none();
    }

    fn expand(&mut self, query: &Query<'_>, by: Expander, answer: &mut Answer) {
        match self.regex.captures(query.bytes) {
            Ok(Some(captures)) => match vec![in query.alloc; b'>'] {
                Ok(mut expanded) => {
                    answer.keep(append(query, &captures, by, &mut expanded));
                    answer.push_new(expanded.strip_prefix(b">"));
                }
                Err(error) => answer.keep(Err(error.into())),
            },
            Ok(None) => answer.push_new(None),
            Err(error) => answer.keep(Err(error)),
        }
    }

    fn replace(&mut self, query: &Query<'_>, search: Search, form: Form, answer: &mut Answer) {
        let template = query.template;
        match search {
            Search::ReplaceOwned => match Vec::from_slice(query.alloc, template) {
                Ok(template) => self.replace_by(query, form, template, answer),
                Err(error) => answer.keep(Err(error)),
            },
            Search::ReplaceLiteral => self.replace_by(query, form, NoExpand(template), answer),
            Search::ReplaceFixed => self.replace_by(query, form, Fixed(template), answer),
            _ => self.replace_by(query, form, template, answer),
        }
    }

    fn replace_count(&mut self, query: &Query<'_>, form: Form, is_lent: bool, answer: &mut Answer) {
        let alloc = query.alloc;
        let matches = spans_of(alloc, self.regex.find_iter(query.bytes), answer);
        let mut served = Served::new(matches, answer.text().is_ok());
        let mut counting = With(|captures: &Captures<'_>| {
            let number = served.serve(captures.get(0));
            format!(in alloc; "{number}")
        });
        if is_lent {
            self.replace_by(query, form, counting.by_ref(), answer);
        } else {
            self.replace_by(query, form, counting, answer);
        }
        served.check(answer);
    }
}

impl Searcher {
    // Replaces by this replacer, and adds the new haystack, or `same` if nothing matched.
    fn replace_by<R: Replacer + Drop>(
        &mut self,
        query: &Query<'_>,
        form: Form,
        replacer: R,
        answer: &mut Answer,
    )
        requires { (state : R) → R.can_replace state }
    {
        let regex = &self.regex;
        let haystack = query.bytes;
        let limit = query.limit;
        let replaced = match form {
            Form::AtWith => regex.replacen_with(&mut self.cache, haystack, limit, replacer),
            Form::WholeWith => regex.replace_all_with(&mut self.cache, haystack, replacer),
            Form::At if limit == 0 => regex.replace_all(haystack, replacer),
            Form::At if limit == 1 => regex.replace(haystack, replacer),
            _ => regex.replacen(haystack, limit, replacer),
        };
        match replaced {
            Ok(CowSlice::Owned(new)) => answer.push_new(Some(new.as_slice())),
            Ok(CowSlice::Borrowed(_)) => answer.push_new(None),
            Err(error) => answer.keep(Err(error)),
        }
    }
}

// Adds the groups that a clone of the regex reads into locations, which are cloned too.
fn read_by_clones(regex: &Regex, query: &Query<'_>, answer: &mut Answer) -> Result<(), AllocError> {
    let regex = regex.clone()?;
    let mut locations = regex.capture_locations()?;
    let found = regex.captures_read_at(&mut locations, query.bytes, query.start);
    push_locations(&locations.clone()?, found, None, answer);
    Ok(())
}

// Adds the first match and its first groups that participated, so many of them.
fn extract_groups(regex: &Regex, query: &Query<'_>, count: usize, answer: &mut Answer)
    requires { static_captures_len regex.now.tree ≡ Some (count + 1) }
{
    match regex.captures(query.bytes) {
        Ok(Some(captures)) => match vec![in query.alloc; query.bytes; count] {
            Ok(mut groups) => {
                answer.push_quoted(captures.extract(&mut groups));
                for group in &groups {
                    answer.push_quoted(group);
                }
            }
            Err(error) => answer.keep(Err(error.into())),
        },
        Ok(None) => {}
        Err(error) => answer.keep(Err(error)),
    }
}

// Appends what the template stands for.
fn append(
    query: &Query<'_>,
    captures: &Captures<'_>,
    by: Expander,
    dst: &mut Vec<u8>,
) -> Result<(), AllocError> {
    let alloc = query.alloc;
    let mut template = query.template;
    match by {
        Expander::Captures => captures.expand(template, dst),
        Expander::Interpolate => interpolate::bytes(
            template,
            |group: usize| match captures.get(group) {
                Some(found) => Some(found.as_bytes()),
                None => None,
            },
            |name: &str| captures.group_index(name),
            dst,
        ),
        Expander::Function => {
            let expanding = With(|captures: &Captures<'_>| {
                let mut new = Vec::new(alloc);
                captures.expand(template, &mut new)?;
                Ok(new)
            });
            append_by(expanding, captures, dst)
        }
        Expander::Template => append_by(template, captures, dst),
        Expander::ByRef => append_by(template.by_ref(), captures, dst),
        Expander::CowRef => append_by(&CowSlice::Borrowed(template), captures, dst),
        _ => {
            let owned = Vec::from_slice(alloc, template)?;
            append_owned(owned, template, captures, by, dst)
        }
    }
}

// Appends by a replacer that owns a text: the template, or what it stands for.
fn append_owned(
    mut owned: Vec<u8>,
    template: &[u8],
    captures: &Captures<'_>,
    by: Expander,
    dst: &mut Vec<u8>,
) -> Result<(), AllocError> {
    match by {
        Expander::Owned => append_by(owned, captures, dst),
        Expander::OwnedRef => append_by(&owned, captures, dst),
        Expander::Cow => append_by(CowSlice::Owned(owned), captures, dst),
        _ => {
            owned.clear();
            captures.expand(template, &mut owned)?;
            append_by(NoExpand(&owned), captures, dst)
        }
    }
}

fn append_by<R: Replacer + Drop>(
    mut replacer: R,
    captures: &Captures<'_>,
    dst: &mut Vec<u8>,
) -> Result<(), AllocError>
    requires { R.can_replace replacer }
{
    replacer.replace_append(captures, dst)
}

/// A replacer with a text for all matches. It must not be asked for another one.
#[derive(Clone, Copy)]
struct Fixed<'t>(&'t [u8]);

impl<'t> Replacer for Fixed<'t> {
    ghost replaces = { λ s _ text t. (text ≡ 121 ∷ []) × (t ≡ s) };

    ghost answers = { λ s answer t. (answer ≡ Some s.0.now) × (t ≡ s) };

    fn replace_append(
        &mut self,
        _captures: &Captures<'_>,
        dst: &mut Vec<u8>,
    ) -> Result<(), AllocError> {
        Ok(dst.push(b'y')?)
    }

    fn no_expansion(&mut self) -> Option<&[u8]> {
        Some(self.0)
    }
}
