ghost use Rattle.std.specs.Prelude.{◌≡◌, ◌≤◌, IfOk, IfSome, map, string_bytes};
ghost use Rattle.std.specs.Result.{result_ok};
ghost use Rattle.an_list.specs.Site.{site_of};
ghost use Rattle.an_app.specs.Form.{connections_of, export_form, find_form, form_named, form_of};
ghost use Rattle.an_app.specs.Form.{from_one, harvest_form, import_form, port_of, serve_form};
ghost use Rattle.an_app.specs.Form.{serving_at};
ghost use Rattle.an_app.specs.Form.{serving_in, serving_of, session_form, site_in, trial_form};
ghost use Rattle.an_app.specs.Form.{trial_of, trial_seed, trial_size, workers_of, IsServed};

use an_base::{Text, read_decimal};
use an_list::{Site, SiteError, read_site};
use std::alloc::{AllocError, Global};

/// What words ask for, with what it takes.
#[derive(Debug, Drop)]
pub enum Form {
    /// Lines are played from the empty state.
    Find(Site),
    /// Lines are written to the store.
    Import,
    /// What the reader of a name sees of the store is printed, as lines.
    Export(Text),
    /// What lives after the changes that the reader of a name sees of the store is printed.
    Harvest { settings: Site, by: Text },
    /// One connection is served at the store.
    Session(Site),
    /// The connections that come in at a port are served at the store.
    Serve(Serving),
    /// A trial is played of so many annotations, which are drawn from a seed.
    Trial { count: u32, seed: u32 },
}

/// By what connections are served.
#[derive(Debug, Drop)]
pub struct Serving {
    pub settings: Site,
    pub port: u16,
    /// How many connections are served at once.
    pub workers: u32,
    /// How many connections are served in all, or 0 where nothing bounds them.
    pub connections: u32,
}

/// The form of words, the first of which names the store, and isn't empty. A server has a port, and
/// from 1 to 64 workers. None where the words are of no form.
#[tactic(auto, using(crate::proofs::FormLemmas::served))]
pub fn form_of(alloc: Global, words: &[String]) -> Result<Option<Form>, AllocError>
    ensures form { IfOk result (λ form. form ≡ form_of (map string_bytes words.now)) }
    ensures served { IfOk result (λ form. IfSome form IsServed) }
{
    form_in(alloc, words)
}

fn form_in(alloc: Global, words: &[String]) -> Result<Option<Form>, AllocError>
    ensures { IfOk result (λ form. form ≡ form_of (map string_bytes words.now)) }
{
    match words {
        [store, name, words @ ..] => if store.as_str() == "" {
            Ok(None)
        } else {
            form_named(alloc, name.as_str(), words)
        },
        _ => Ok(None),
    }
}

/// The form of this name, with the words behind the name.
#[tactic(auto, unfolding(crate::specs::Form::form_named))]
fn form_named(alloc: Global, name: &str, words: &[String]) -> Result<Option<Form>, AllocError>
    ensures { IfOk result (λ form. form ≡ form_named name.now (map string_bytes words.now)) }
{
    match name {
        "find" => find_form(alloc, words),
        "import" => Ok(import_form(words)),
        "export" => export_form(alloc, words),
        "harvest" => harvest_form(alloc, words),
        "session" => session_form(alloc, words),
        "serve" => serve_form(alloc, words),
        "trial" => Ok(trial_form(words)),
        _ => Ok(None),
    }
}

fn find_form(alloc: Global, words: &[String]) -> Result<Option<Form>, AllocError>
    ensures { IfOk result (λ form. form ≡ find_form (map string_bytes words.now)) }
{
    match site_in(alloc, words)? {
        Some(settings) => Ok(Some(Form::Find(settings))),
        None => Ok(None),
    }
}

fn session_form(alloc: Global, words: &[String]) -> Result<Option<Form>, AllocError>
    ensures { IfOk result (λ form. form ≡ session_form (map string_bytes words.now)) }
{
    match site_in(alloc, words)? {
        Some(settings) => Ok(Some(Form::Session(settings))),
        None => Ok(None),
    }
}

/// The base of all IRIs, and the size of a page.
fn site_in(alloc: Global, words: &[String]) -> Result<Option<Site>, AllocError>
    ensures { IfOk result (λ settings. settings ≡ site_in (map string_bytes words.now)) }
{
    match words {
        [base, size] => site_of(alloc, base.as_str(), size.as_str()),
        _ => Ok(None),
    }
}

fn site_of(alloc: Global, base: &str, size: &str) -> Result<Option<Site>, AllocError>
    ensures { IfOk result (λ settings. settings ≡ result_ok (site_of base.now size.now)) }
{
    match read_site(alloc, base, size) {
        Ok(settings) => Ok(Some(settings)),
        Err(error) => if matches!(error, SiteError::Memory) {
            Err(AllocError)
        } else {
            Ok(None)
        },
    }
}

fn serve_form(alloc: Global, words: &[String]) -> Result<Option<Form>, AllocError>
    ensures { IfOk result (λ form. form ≡ serve_form (map string_bytes words.now)) }
{
    match words {
        [base, size, words @ ..] => {
            let settings = site_of(alloc, base.as_str(), size.as_str())?;
            Ok(serving_in(settings, words))
        }
        _ => Ok(None),
    }
}

#[tactic(auto, unfolding(crate::specs::Form::serving_in))]
fn serving_in(settings: Option<Site>, words: &[String]) -> Option<Form>
    ensures { result ≡ serving_in settings (map string_bytes words.now) }
{
    match words {
        [port, words @ ..] => serving_at(settings, port_of(port.as_str()), words),
        [] => None,
    }
}

fn serving_at(settings: Option<Site>, port: Option<u16>, words: &[String]) -> Option<Form>
    ensures { result ≡ serving_at settings port (map string_bytes words.now) }
{
    match words {
        [workers, connections] => serving_of(
            settings,
            port,
            workers_of(workers.as_str()),
            connections_of(connections.as_str()),
        ),
        _ => None,
    }
}

fn serving_of(
    settings: Option<Site>,
    port: Option<u16>,
    workers: Option<u32>,
    connections: Option<u32>,
) -> Option<Form>
    ensures { result ≡ serving_of settings port workers connections }
{
    match (settings, port, workers, connections) {
        (Some(settings), Some(port), Some(workers), Some(connections)) => {
            Some(Form::Serve(Serving {
                settings,
                port,
                workers,
                connections,
            }))
        }
        _ => None,
    }
}

/// The port that a word says, if it says one.
#[tactic(auto, unfolding(crate::specs::Form::port_of))]
fn port_of(word: &str) -> Option<u16>
    ensures { result ≡ port_of word.now }
{
    match from_one(word, 65_535) {
        Some(port) => Some(port as u16),
        None => None,
    }
}

/// How many workers a word says, if it says a number from 1 to 64.
#[tactic(auto, unfolding(crate::specs::Form::workers_of))]
fn workers_of(word: &str) -> Option<u32>
    ensures { result ≡ workers_of word.now }
{
    from_one(word, 64)
}

/// How many connections a word says, if it says a number of 32 bits.
#[tactic(auto, unfolding(crate::specs::Form::connections_of))]
fn connections_of(word: &str) -> Option<u32>
    ensures { result ≡ connections_of word.now }
{
    read_decimal(word, u32::MAX)
}

/// The number from 1 to the greatest that a word says, if it says one.
fn from_one(word: &str, greatest: u32) -> Option<u32>
    ensures number { result ≡ from_one greatest word.now }
    ensures few { IfSome result (λ number. number ≤ greatest) }
{
    match read_decimal(word, greatest) {
        Some(number) => if 0 < number { Some(number) } else { None },
        None => None,
    }
}

fn import_form(words: &[String]) -> Option<Form>
    ensures { result ≡ import_form (map string_bytes words.now) }
{
    match words {
        [] => Some(Form::Import),
        _ => None,
    }
}

fn export_form(alloc: Global, words: &[String]) -> Result<Option<Form>, AllocError>
    ensures { IfOk result (λ form. form ≡ export_form (map string_bytes words.now)) }
{
    match words {
        [by] => Ok(Some(Form::Export(Text::new(alloc, by.as_str())?))),
        _ => Ok(None),
    }
}

fn harvest_form(alloc: Global, words: &[String]) -> Result<Option<Form>, AllocError>
    ensures { IfOk result (λ form. form ≡ harvest_form (map string_bytes words.now)) }
{
    match words {
        [base, size, by] => match site_of(alloc, base.as_str(), size.as_str())? {
            Some(settings) => {
                let by = Text::new(alloc, by.as_str())?;
                Ok(Some(Form::Harvest { settings, by }))
            }
            None => Ok(None),
        },
        _ => Ok(None),
    }
}

fn trial_form(words: &[String]) -> Option<Form>
    ensures { result ≡ trial_form (map string_bytes words.now) }
{
    match words {
        [count, seed] => trial_of(count.as_str(), seed.as_str()),
        _ => None,
    }
}

fn trial_of(count: &str, seed: &str) -> Option<Form>
    ensures { result ≡ trial_of count.now seed.now }
{
    let count = trial_size(count)?;
    let seed = trial_seed(seed)?;
    Some(Form::Trial { count, seed })
}

/// How many annotations a trial has, if a word says that.
fn trial_size(count: &str) -> Option<u32>
    ensures { result ≡ trial_size count.now }
{
    from_one(count, 50_000)
}

/// The seed of a trial, if a word is one.
fn trial_seed(seed: &str) -> Option<u32>
    ensures { result ≡ trial_seed seed.now }
{
    read_decimal(seed, 2_147_483_647)
}
