//! The policy that the command line names.
use std::env::Env;
use std::str::FromStr;
use std::{env, io};

/// How the settings are chosen.
#[derive(Clone, Copy)]
pub(crate) enum Method {
    Path,
    Peeling,
}

/// The error of a word that names no policy.
#[derive(Clone, Copy)]
pub(crate) struct NoPolicy;

impl FromStr for Method {
    type Err = NoPolicy;

    fn from_str(word: &str) -> Result<Method, NoPolicy> {
        match word {
            "path" => Ok(Method::Path),
            "peeling" => Ok(Method::Peeling),
            _ => Err(NoPolicy),
        }
    }
}

/// The policy that the first word of the command line names, if it names one.
pub(crate) fn read(rt: &(impl Env + Alloc)) -> io::Result<Option<Method>> {
    let word = env::args(rt)?.nth(1);
    Ok(word.and_then(|word| word.parse().ok()))
}
