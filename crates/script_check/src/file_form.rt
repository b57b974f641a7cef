// Which form a text is taken to have. Called by `verdict` and `places`.
ghost use Rattle.std.specs.Prelude.{◌≡◌};
ghost use Rattle.serde_json.specs.View.{view};
ghost use Rattle.script_check.specs.Good.{file_form_in, form_by};

use json_places::Written;
use serde_json::Value;

/// What a text is for.
#[derive(Clone, Copy, Debug, PartialEq, Eq, Drop)]
pub enum FileForm {
    /// `run`
    Script,
    /// `race`
    Race,
    /// `explain`
    Plan,
}

// The form of an object that has these keys.
fn form_by(has_steps: bool, has_clients: bool, has_query: bool, has_schema: bool) -> FileForm
    ensures { result ≡ form_by has_steps has_clients has_query has_schema }
{
    if has_steps {
        FileForm::Script
    } else if has_clients {
        FileForm::Race
    } else if has_query || has_schema {
        FileForm::Plan
    } else {
        FileForm::Script
    }
}

/// The form of a text that is this value: that of the first of these keys that it has.
pub(crate) fn form_of(value: &Value) -> FileForm
    ensures { result ≡ file_form_in (view value.now) }
{
    let has_steps = value.get("steps").is_some();
    let has_clients = value.get("clients").is_some();
    let has_query = value.get("query").is_some();
    let has_schema = value.get("schema").is_some();
    form_by(has_steps, has_clients, has_query, has_schema)
}

// Whether a value has a key.
fn has(value: &Written, key: &str) -> bool {
    value.get(key).is_some()
}

/// The same of a value with its places.
pub(crate) fn form_of_written(value: &Written) -> FileForm {
    form_by(
        has(value, "steps"),
        has(value, "clients"),
        has(value, "query"),
        has(value, "schema"),
    )
}
