// The order checker's calls from C and Rust.
#![tactic(auto)]

ghost use Rattle.formats.specs.Results.{on_value};
ghost use Rattle.rules.specs.PassTwo.{check_records, check_file};
ghost use Rattle.answers.specs.Answer.{Answers};

// Whether the program of a file passes both passes. The refusal's number, 0 where it passes; the
// refusal's position goes to the answer's first slot, and 0 to its second. With fewer slots: 13,
// and the answer is untouched.
pub fn check(file: &[u8], answer: &mut [u64]) -> u32
    ensures { Answers (on_value (λ u. 0) (check_file file.now))
        answer.old answer.new result }
{
    answers::report_verdict(order::check_file(file), answer)
}

// Whether flat records, 8 bytes each, are a program that passes both passes. The answer is that of
// `check`.
pub fn check_records(flat: &[u8], answer: &mut [u64]) -> u32
    ensures { Answers (on_value (λ u. 0) (check_records flat.now))
        answer.old answer.new result }
{
    answers::report_verdict(order::check_records(flat), answer)
}
