/// A node of the graph of what is used: so far functions alone.
#[derive(Clone, Copy)]
pub enum Node {
    /// The function with the body of this number.
    Function(u32),
}
