//! `clients NAME [WORD..]`: does what the client of this name does. A program that has the name of a client, as a copy
//! or a link of this one, is that client. Its help says the rest (`help.rt`).
#![tactic(auto)]

mod client;
mod explain;
mod fields;
mod help;
mod lines;
mod routes;
mod sed;
mod tokens;

use bites_filter::fault::Fault;
use bites_filter::help::{Help, asks_for_help, write_help};
use bites_filter::program::{status, words};
use client::Client;
use help::HELP;
use std::process::ExitCode;

fn main(rt: HostRuntime) -> ExitCode {
    let by_name = Client::of_program(&rt);
    let words = match words(&rt, help_of(by_name)) {
        Ok(words) => words,
        Err(fault) => return status(help_of(by_name).program, Err(fault), &mut rt.stderr()),
    };
    let (client, words) = asked(by_name, words.as_slice());
    status(
        help_of(client).program,
        run(&rt, client, words),
        &mut rt.stderr(),
    )
}

// Returns the client that is asked, and its words: the one that the program is named after, or else the one that the
// first word names. If there is none, these are the words of the program itself.
fn asked(by_name: Option<Client>, words: &[String]) -> (Option<Client>, &[String]) {
    match (by_name, words) {
        (None, [name, others @ ..]) => match Client::named(name.as_bytes()) {
            Some(client) => (Some(client), others),
            None => (None, words),
        },
        _ => (by_name, words),
    }
}

// Returns what the client says of itself, or the program if there is none.
fn help_of(client: Option<Client>) -> &'static Help {
    match client {
        Some(client) => client.help(),
        None => &HELP,
    }
}

// Does what the words ask for. Returns the status.
fn run(rt: &HostRuntime, client: Option<Client>, words: &[String]) -> Result<u8, Fault> {
    let help = help_of(client);
    if asks_for_help(words) {
        return write_help(help, &mut rt.stdout());
    }
    let status = match client {
        Some(client) => client.run(rt, words)?,
        None => None,
    };
    match status {
        Some(status) => Ok(status),
        None => Err(Fault::Usage(help)),
    }
}
