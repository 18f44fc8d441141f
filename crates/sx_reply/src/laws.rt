//! What a client may rely on.
ghost use Rattle.std.specs.Prelude.{◌≡◌, ◌++◌, [], true, false};
ghost use Rattle.sx_reply.specs.declared.answer.Answer.{Answer};
ghost use Rattle.sx_reply.specs.declared.answer.Shape.{Shape};
ghost use Rattle.sx_reply.specs.PrintedReply.{printed, answer_head, answer_body};
ghost use Rattle.sx_reply.specs.Laws.{StatesLength};

/// The law of lengths: what is printed is a head and a body, the head states the length of the body, and to a request
/// for the head alone no body is sent. It does nothing.
pub fn heads_state_lengths()
    ensures parts { (answer : Answer) (shape : Shape)
        → printed answer shape ≡ answer_head answer shape ++ answer_body answer shape }
    ensures stated { (answer : Answer) (shape : Shape) → shape.head_only ≡ false
        → StatesLength (answer_head answer shape) (answer_body answer shape) }
    ensures none { (answer : Answer) (shape : Shape) → shape.head_only ≡ true → answer_body answer shape ≡ [] }
{}
