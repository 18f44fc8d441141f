//! The laws of readers, as functions that do nothing.
ghost use Rattle.std.specs.Prelude.{◌≡◌, ◌<◌, ◌≤◌, ◌^◌, ℕ, suc, ◌+◌, List, Bool, true, false, ◌++◌, ◌⊎◌};
ghost use Rattle.std.specs.Str.{is_utf8};
ghost use Rattle.std.specs.List.{AllByRecursion};
ghost use Rattle.sx_text.specs.Texts.{Reader, IsReading, IsWholeReading};
ghost use Rattle.sx_text.specs.Readers.{after, pair_at, closed_at, made_at, all_values_at, values_text, IsNoStart};
ghost use Rattle.sx_text.specs.Readers.{whole_of, either_at, IsStart};
ghost use Rattle.sx_text.specs.Machines.{Step, run_from, Leads, IsLive};
ghost use Rattle.sx_text.specs.Numbers.{IsFrom, is_digit, number_text, number_at, number_after};
ghost use Rattle.sx_text.specs.Escapes.{IsWhole, escaped, escaped_text, escaped_at, escaped_after};
ghost use Rattle.sx_text.specs.Digits.{digits_text, digits_at, digits_after};
ghost use Rattle.sx_text.specs.Hex.{hex_text, hex_at, hex_after};
ghost use Rattle.sx_text.specs.Named.{IsNamed, AreApart, named_at, named_after};

/// A form of text over items of type `E`: the text of each value, and the values that have one.
pub trait Form<E> {
    ghost text: { Self → List E };

    ghost Fits: { Self → Type 0 };
}

/// A form of text that depends on a value of `A` in front of it.
pub trait FormBehind<E, A> {
    ghost text: { A → Self → List E };

    ghost Fits: { A → Self → Type 0 };
}

/// Two forms of text of one type: the values that have a text of the first form, and those that have one of the second.
pub trait TwoForms {
    ghost text: { Self → List ℕ };

    ghost First: { Self → Type 0 };

    ghost Second: { Self → Type 0 };
}

/// The states of a machine: which of them are live.
pub trait State {
    ghost Live: { Self → Type 0 };
}

/// The law of whole texts: a reader of a form that has to end with the items reads exactly the texts, and else tells
/// the length of the longest prefix that begins one. It does nothing.
pub fn whole_texts_are_read<E, A: Form<E>>()
    ensures { ((x y : E) → (x ≡ y) ⊎ (x ≡ y → ⊥)) → (read : Reader E A) → IsReading A.text A.Fits read
        → IsWholeReading A.text A.Fits (whole_of read) }
{}

/// The law of pairs: a value, and then one whose form may depend on it, where each first value that fits has a second
/// one. It does nothing.
pub fn pairs_are_read<E, A: Form<E>, B: FormBehind<E, A>>()
    ensures { ((x y : E) → (x ≡ y) ⊎ (x ≡ y → ⊥)) → (first : Reader E A) (next : A → Reader E B)
        → IsReading A.text A.Fits first → ((a : A) → A.Fits a → (b : B) × B.Fits a b)
        → ((a : A) → A.Fits a → IsReading (B.text a) (B.Fits a) (next a))
        → IsReading (λ x. A.text x.0 ++ B.text x.0 x.1) (λ x. A.Fits x.0 × B.Fits x.0 x.1) (pair_at first next) }
{}

/// The law of values that are made of others, by a function and its inverse that keep the texts. It does nothing.
pub fn made_values_are_read<E, A: Form<E>, B: Form<E>>()
    ensures { ((x y : E) → (x ≡ y) ⊎ (x ≡ y → ⊥)) → (make : A → B) (part : B → A) (read : Reader E A)
        → ((a : A) → A.Fits a → B.Fits (make a) × (B.text (make a) ≡ A.text a))
        → ((b : B) → B.Fits b → A.Fits (part b) × (make (part b) ≡ b))
        → IsReading A.text A.Fits read → IsReading B.text B.Fits (made_at make read) }
{}

/// The law of literals: in front of a value, of which the form has one, and behind a value. It does nothing.
pub fn literals_are_read<A: Form<u8>>()
    ensures before { (literal : List ℕ) (next : Reader ℕ A) → (a : A) → A.Fits a → IsReading A.text A.Fits next
        → IsReading (λ x. literal ++ A.text x) A.Fits (after literal next) }
    ensures behind { (literal : List ℕ) (read : Reader ℕ A) → IsReading A.text A.Fits read
        → IsReading (λ x. A.text x ++ literal) A.Fits (closed_at read literal) }
{}

/// The law of values up to a byte that begins none of them. It does nothing.
pub fn values_are_read<A: Form<u8>>()
    ensures { (stop : ℕ) (read : Reader ℕ A) → IsNoStart A.text A.Fits stop → IsReading A.text A.Fits read
        → IsReading (values_text A.text stop) (AllByRecursion A.Fits) (all_values_at stop read) }
{}

/// The law of choices: of two forms the byte at the front tells, where each text of the first form begins with it, some
/// value has such a text, and no text of the second form is empty or begins with it. It does nothing.
pub fn choices_are_read<A: TwoForms>()
    ensures { (start : ℕ) (first second : Reader ℕ A) → (a : A) → A.First a → IsStart A.text A.First start
        → IsNoStart A.text A.Second start → IsReading A.text A.First first → IsReading A.text A.Second second
        → IsReading A.text (λ a. A.First a ⊎ A.Second a) (either_at start first second) }
{}

/// The law of machines: a machine that starts in a live state reads exactly the items that lead to its end. It does
/// nothing.
pub fn machines_read<E, V: Form<E>, S: State>()
    ensures { ((x y : E) → (x ≡ y) ⊎ (x ≡ y → ⊥)) → (step : S → E → Step S V) (s : S) → IsLive step S.Live → S.Live s
        → ((w : List E) (v : V) → Leads step s w v → V.Fits v × (V.text v ≡ w))
        → ((v : V) → V.Fits v → Leads step s (V.text v) v) → IsReading V.text V.Fits (run_from step s) }
{}

/// The law of numbers: they are read exactly, with the byte behind them, which is no digit. It does nothing.
pub fn numbers_are_read()
    ensures alone { (stop low high : ℕ) → is_digit stop ≡ false → low ≤ high → high < 2 ^ 64
        → IsReading (number_text stop) (IsFrom low high) (number_at stop low high) }
    ensures behind { (literal : List ℕ) (stop low high : ℕ) → is_digit stop ≡ false → low ≤ high → high < 2 ^ 64
        → IsReading (λ n. literal ++ number_text stop n) (IsFrom low high) (number_after literal stop low high) }
{}

/// The law of digits: numbers of so many digits are read exactly. It does nothing.
pub fn digits_are_read()
    ensures alone { (more low high : ℕ) → low ≤ high → high < 10 ^ suc more
        → IsReading (digits_text (suc more)) (IsFrom low high) (digits_at more low high) }
    ensures behind { (literal : List ℕ) (more low high : ℕ) → low ≤ high → high < 10 ^ suc more
        → IsReading (λ n. literal ++ digits_text (suc more) n) (IsFrom low high) (digits_after literal more low high) }
{}

/// The law of hexadecimal digits: numbers of so many digits are read exactly. It does nothing.
pub fn hex_digits_are_read()
    ensures alone { (more : ℕ) → IsReading (hex_text (suc more)) (λ n. n < 16 ^ suc more) (hex_at more) }
    ensures behind { (literal : List ℕ) (more : ℕ)
        → IsReading (λ n. literal ++ hex_text (suc more) n) (λ n. n < 16 ^ suc more) (hex_after literal more) }
{}

/// The law of names: the names of the numbers that are allowed are read exactly, where no name stands at the place of
/// another one and some number is allowed. It does nothing.
pub fn names_are_read()
    ensures alone { (name : ℕ → List ℕ) (is_allowed : ℕ → Bool) (count first : ℕ) → AreApart name first (first + count)
        → (n : ℕ) → IsNamed is_allowed count first n
        → IsReading name (IsNamed is_allowed count first) (named_at name is_allowed count first) }
    ensures behind { (literal : List ℕ) (name : ℕ → List ℕ) (is_allowed : ℕ → Bool) (count first : ℕ)
        → AreApart name first (first + count) → (n : ℕ) → IsNamed is_allowed count first n
        → IsReading (λ n. literal ++ name n) (IsNamed is_allowed count first)
        (named_after literal name is_allowed count first) }
{}

/// The law of escaped texts: texts of UTF-8 in which `&`, `<` and `>` are escaped are read exactly, with the `<`
/// behind them. It does nothing.
pub fn escaped_texts_are_read()
    ensures alone { IsReading escaped_text IsWhole escaped_at }
    ensures behind { (literal : List ℕ)
        → IsReading (λ bytes. literal ++ escaped_text bytes) IsWhole (escaped_after literal) }
{}

/// The law of whole characters: bytes that are whole characters are UTF-8 as std reads it, and the other way round;
/// and a text with escapes is one where the text is. It does nothing.
pub fn whole_characters_are_utf8()
    ensures whole { (bytes : List ℕ) → IsWhole bytes → is_utf8 bytes ≡ true }
    ensures utf8 { (bytes : List ℕ) → is_utf8 bytes ≡ true → IsWhole bytes }
    ensures escaped { (bytes : List ℕ) → is_utf8 bytes ≡ true → is_utf8 (escaped bytes) ≡ true }
{}
