use wcc_base::Text;

/// A pragma of the tree: its text, and the place of its `#` or `_Pragma`. It bounds the loop that
/// follows it, is a marker that counts how often it is reached, or restricts the counts of a whole run.
#[derive(Drop)]
pub struct Pragma {
    pub text: Text,
    pub at: u32,
}
