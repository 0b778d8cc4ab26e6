// A law of what is printed and read.
ghost use Rattle.std.specs.Prelude.{◌≡◌, ℕ, ◌<◌, ◌^◌, Some};
ghost use Rattle.mps_format.specs.declared.head.Head.{Head};
ghost use Rattle.mps_format.specs.HeadText.{head_of_word};
ghost use Rattle.mps_model.specs.declared.reply.Reply.TheVariants as reply;
ghost use Rattle.mps_model.specs.Text.{reply_text};
ghost use Rattle.mps_numerals.specs.Decimal.{decimal_number};
ghost use Rattle.mps_line_words.specs.Number.{prefixed_hexadecimal};
ghost use Rattle.mps_line_words.specs.Head.{head_of};

/// A number, a word and a head that are printed can be read by a script: each is read as the number, the word and the head
/// that it was.
pub fn answers_are_read_back()
    ensures number { (n : ℕ) → n < 2 ^ 64 → decimal_number (reply_text (reply.Number n)) ≡ Some n }
    ensures word { (n : ℕ) → n < 2 ^ 64 → prefixed_hexadecimal (reply_text (reply.Word n)) ≡ Some n }
    ensures head { (word : ℕ) → word < 2 ^ 64 → (head : Head) → head_of_word word ≡ Some head
        → head_of (reply_text (reply.Head word)) ≡ Some word }
{}
