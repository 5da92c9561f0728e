//! What the words of the command line ask for.

/// Whether rows are shown in columns.
#[derive(Clone, Copy, Debug, PartialEq, Eq)]
pub enum Form {
    /// Where standard output is a terminal.
    Either,
    /// As `vert` prints them.
    Plain,
    /// In columns.
    Table,
}

/// What the words ask for.
#[derive(Clone, Copy, Debug)]
pub struct Wanted<'a> {
    pub form: Form,
    pub dir: &'a str,
    pub script: Option<&'a str>,
}

/// The form that an option asks for.
fn form_of(word: &str) -> Option<Form> {
    if word == "--plain" {
        Some(Form::Plain)
    } else if word == "--table" {
        Some(Form::Table)
    } else {
        None
    }
}

/// What the words behind the program's name ask for: `[--plain | --table] DIR [SCRIPT]`, the options in any order, and none behind `--`. None where they are
/// of no such form.
pub fn wanted_by(words: &[String]) -> Option<Wanted<'_>> {
    let mut form = Form::Either;
    let mut dir = None;
    let mut script = None;
    let mut ended = false;
    for word in words {
        let word = word.as_str();
        if !ended && word == "--" {
            ended = true;
        } else if !ended && word.starts_with("-") {
            form = form_of(word)?;
        } else if dir.is_none() {
            dir = Some(word);
        } else if script.is_none() {
            script = Some(word);
        } else {
            return None;
        }
    }
    Some(Wanted {
        form,
        dir: dir?,
        script,
    })
}
