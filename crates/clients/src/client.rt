//! The clients by their names.

use crate::{explain, fields, lines, routes, sed, tokens};
use bites_filter::fault::Fault;
use bites_filter::help::Help;
use std::rt::Env;

/// A client.
#[derive(Clone, Copy)]
pub(crate) enum Client {
    Lines,
    Sed,
    Fields,
    Routes,
    Tokens,
    Explain,
}

// How long a path can be, with the zero that ends it.
const PATH_SIZE: usize = 4096;

impl Client {
    /// Returns the client that the program is named after: the last component of word 0 of the command line is its name.
    pub(crate) fn of_program(rt: &impl Env) -> Option<Client> {
        let mut path = [0; PATH_SIZE];
        let len = rt.arg(0, &mut path).ok()?;
        let name = path[..len].rsplit(|byte| *byte == b'/').next()?;
        Client::named(name)
    }

    /// Returns the client of this name.
    pub(crate) fn named(name: &[u8]) -> Option<Client> {
        match name {
            b"lines" => Some(Client::Lines),
            b"sed" => Some(Client::Sed),
            b"fields" => Some(Client::Fields),
            b"routes" => Some(Client::Routes),
            b"tokens" => Some(Client::Tokens),
            b"explain" => Some(Client::Explain),
            _ => None,
        }
    }

    /// Returns what the client says of itself.
    pub(crate) fn help(self) -> &'static Help {
        match self {
            Client::Lines => &lines::help::HELP,
            Client::Sed => &sed::help::HELP,
            Client::Fields => &fields::help::HELP,
            Client::Routes => &routes::help::HELP,
            Client::Tokens => &tokens::help::HELP,
            Client::Explain => &explain::help::HELP,
        }
    }

    /// Does what the words ask for. Returns the status, or `None` if they are not words that the client takes.
    pub(crate) fn run(self, rt: &HostRuntime, words: &[String]) -> Result<Option<u8>, Fault> {
        match self {
            Client::Lines => lines::run(rt, words),
            Client::Sed => sed::run(rt, words),
            Client::Fields => fields::run(rt, words),
            Client::Routes => routes::run(rt, words),
            Client::Tokens => tokens::run(rt, words),
            Client::Explain => explain::run(rt, words),
        }
    }
}
