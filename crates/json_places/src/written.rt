// The values of a text with their places. Made by `read`; `script_check` and `recordctl` look at
// them.

/// A value of a text.
#[derive(Drop)]
#[cycle(values)]
pub struct Written {
    /// The place of its first byte, from 0.
    pub begin: usize,
    /// The place of what follows it, after blanks and a comma, or where the text ends.
    pub end: usize,
    /// What it is.
    pub form: Form,
}

/// What a value is.
#[derive(Drop)]
#[cycle(values)]
pub enum Form {
    /// `null`
    Null,
    /// `true` or `false`
    Bool(bool),
    /// A number, as it is written.
    Number(String),
    /// A text.
    Text(String),
    /// A list.
    List(Vec<Written>),
    /// An object.
    Object(Vec<Member>),
}

/// A key of an object, and what stands there.
#[derive(Drop)]
#[cycle(values)]
pub struct Member {
    /// The place of the key, from 0.
    pub begin: usize,
    /// The key.
    pub key: String,
    /// What stands there.
    pub value: Written,
}

impl Written {
    /// What a list has, none of another value.
    pub fn items(&self) -> Option<&[Written]> {
        match &self.form {
            Form::List(items) => Some(items.as_slice()),
            _ => None,
        }
    }

    /// What an object has, none of another value.
    pub fn members(&self) -> Option<&[Member]> {
        match &self.form {
            Form::Object(members) => Some(members.as_slice()),
            _ => None,
        }
    }

    /// The characters of a text, none of another value.
    pub fn text(&self) -> Option<&str> {
        match &self.form {
            Form::Text(text) => Some(text.as_str()),
            _ => None,
        }
    }

    /// What stands at a key of an object, where the last one counts; none where nothing does.
    pub fn get(&self, key: &str) -> Option<&Member> {
        let members = self.members()?;
        members
            .iter()
            .rev()
            .find(|member| member.key.as_str() == key)
    }
}
