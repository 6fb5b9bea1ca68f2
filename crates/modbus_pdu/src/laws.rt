//! Laws of the grammar alone.
ghost use Rattle.std.specs.Prelude.{◌≡◌, ℕ, List};
ghost use Rattle.modbus_pdu.specs.Grammar.{IsRequest, IsReply};
ghost use Rattle.modbus_pdu.specs.declared.pdu.Request.{Request};
ghost use Rattle.modbus_pdu.specs.declared.pdu.Reply.{Reply};

/// Each request has one spelling, and each spelling is of one request: what is encoded is decoded again, and
/// the other way round.
pub fn one_spelling_a_request()
    ensures one_spelling { (a b : List ℕ) (request : Request)
        → IsRequest a request → IsRequest b request → a ≡ b }
    ensures one_request { (bytes : List ℕ) (x y : Request) → IsRequest bytes x → IsRequest bytes y → x ≡ y }
{}

/// Each reply has one spelling, and each spelling is of one reply.
pub fn one_spelling_a_reply()
    ensures one_spelling { (a b : List ℕ) (reply : Reply) → IsReply a reply → IsReply b reply → a ≡ b }
    ensures one_reply { (bytes : List ℕ) (x y : Reply) → IsReply bytes x → IsReply bytes y → x ≡ y }
{}
