//! One answer of the same bytes.
ghost use Rattle.gp_one_answer.specs.Answers.{AnswerLaw};
ghost use Rattle.gp_one_answer.specs.Pages.{PageLaw};

/// The law of answers. Bytes that hold a whole response that is accepted aren't refused, whatever the state of the input: a failure of
/// the dialer alone can come beside them. They hold one head and one content, and these ask for one thing, or are refused.
pub fn answer_law()
    ensures { AnswerLaw }
{}

/// The law of pages. Bytes that hold a page aren't refused as one, and hold one page.
pub fn page_law()
    ensures { PageLaw }
{}
