// Tasks of a list.
use wcc_base::Text;

/// A task: its name, the cycles from one release to the next at least, and the files of its image
/// and of the report on it.
#[derive(Drop)]
pub struct Entry {
    pub name: Text,
    pub period: u64,
    pub image: Text,
    pub report: Text,
}
