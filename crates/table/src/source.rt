// What is read: the bytes of a table, and the rule for the numbers in them.
use crate::rule::Rule;

#[derive(Clone, Copy)]
pub struct Source<'a> {
    pub rule: Rule,
    pub bytes: &'a [u8],
}
