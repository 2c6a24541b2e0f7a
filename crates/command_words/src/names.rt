// The files that a request names.
ghost use Rattle.std.specs.Prelude.{◌≡◌, map, option_map};
ghost use Rattle.std.specs.List.{list_any};
ghost use Rattle.std.specs.Str.{bytes_eq};
ghost use Rattle.command_words.specs.Requests.{has_twins, with_table, files_of};
ghost use Rattle.command_words.specs.Asked.{distinct};
ghost use Rattle.command_words.specs.Held.{request_of};

use crate::request::Request;

// Whether the name is one of the others.
fn is_among(name: &str, others: &[&str]) -> bool
    ensures { result ≡ list_any (λ o. bytes_eq name.now o) (map (λ s. s.now) others.now) }
{
    'others: for other in others {
        if name == *other {
            return true;
        }
    }
    false
}

// Whether two of the names are equal.
fn has_twins(names: &[&str]) -> bool
    ensures { result ≡ has_twins (map (λ s. s.now) names.now) }
{
    'names: for i in 0..names.len() {
        if is_among(names[i], &names[i + 1..]) {
            return true;
        }
    }
    false
}

// Whether two of the names are equal, the table's included.
fn has_twins_with(table: Option<&str>, names: &[&str]) -> bool
    ensures { result ≡ has_twins (with_table (option_map (λ s. s.now) table.entry) (map (λ s. s.now) names.now)) }
{
    match table {
        Some(table) => is_among(table, names) || has_twins(names),
        None => has_twins(names),
    }
}

// Whether two of the files of a request have one name.
fn names_twice(request: Request) -> bool
    ensures { result ≡ has_twins (files_of (request_of request.entry)) }
{
    match request {
        Request::Compile(r) => has_twins_with(r.table, &[r.source, r.image, r.report]),
        Request::Check(r) => has_twins_with(r.table, &[r.image, r.report]),
        Request::Run(r) => has_twins_with(r.table, &[r.image, r.input, r.output]),
        Request::Eval(r) => has_twins(&[r.source, r.input, r.output]),
        Request::Report(r) => has_twins(&[r.report]),
        Request::Make(r) => has_twins(&[r.source, r.image, r.report]),
        Request::Respond(r) => has_twins_with(r.table, &[r.tasks]),
    }
}

/// The request, where no two of its files have one name.
pub fn distinct(request: Request<'_>) -> Option<Request<'_>>
    ensures { option_map request_of result ≡ distinct (request_of request.entry) }
{
    if names_twice(request) {
        return None;
    }
    Some(request)
}
