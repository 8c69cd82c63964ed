// What a logger answered to a question.

// The argument asked, and what the logger counts there.
#[derive(Clone, Copy, Default)]
pub struct Answer {
    pub at: u32,
    pub count: Option<u32>,
}
