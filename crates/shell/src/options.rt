use bearer::side::Highest;
use console::command::Misuse;

// How the strings of a log stand.
#[derive(Clone, Copy, PartialEq, Eq, Debug)]
pub(crate) enum Form {
    Direct,
    Gateway,
}

// What a log is played on.
#[derive(Clone, Copy)]
pub(crate) struct Options {
    pub(crate) form: Form,
    pub(crate) highest: Highest,
    pub(crate) latest: u32,
}

// No `FromStr`: `Highest` and `u32` are not of this crate, and the three words are read alike.
fn form_named(word: &str) -> Option<Form> {
    match word {
        "direct" => Some(Form::Direct),
        "gateway" => Some(Form::Gateway),
        _ => None,
    }
}

fn highest_named(word: &str) -> Option<Highest> {
    match word {
        "highest=127" => Some(Highest::Seven),
        "highest=255" => Some(Highest::Eight),
        _ => None,
    }
}

fn latest_named(word: &str) -> Option<u32> {
    word.strip_prefix("latest=")?.parse().ok()
}

// The options that the words behind `log` ask for, each at most once and in this order: the form, the highest octet, the
// latest number.
pub(crate) fn asked_by(words: &[String]) -> Result<Options, Misuse> {
    let mut words = words.iter().skip(1).peekable();
    let form = words.next_if_map(|word| form_named(word).ok_or(word));
    let highest = words.next_if_map(|word| highest_named(word).ok_or(word));
    let latest = words.next_if_map(|word| latest_named(word).ok_or(word));
    if words.next().is_some() {
        return Err(Misuse::LogWords);
    }
    Ok(Options {
        form: form.unwrap_or(Form::Gateway),
        highest: highest.unwrap_or(Highest::Eight),
        latest: latest.unwrap_or(0),
    })
}
