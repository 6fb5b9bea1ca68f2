//! Laws of the definitions alone.
ghost use Rattle.std.specs.Prelude.{◌≡◌, ℕ, List, length, take, Some};
ghost use Rattle.std.specs.List.{AllByRecursion};
ghost use Rattle.modbus_pdu.specs.Grammar.{IsByte, IsWord, IsReply};
ghost use Rattle.modbus_pdu.specs.declared.pdu.Reply.{Reply};
ghost use Rattle.modbus_pdu.specs.declared.pdu.Reply.TheVariants as reply;
ghost use Rattle.der_models.specs.Limit.{limit_registers};
ghost use Rattle.readback.specs.declared.judging.Judged.TheVariants as judged;
ghost use Rattle.readback.specs.Replies.{reply_of};
ghost use Rattle.readback.specs.Judging.{reply_judgement};

/// The reply that bytes are is the one that the grammar has for them.
pub fn replies_by_the_grammar()
    ensures found { (bytes : List ℕ) (reply : Reply) → AllByRecursion IsByte bytes → reply_of bytes ≡ Some reply → IsReply bytes reply }
    ensures only { (bytes : List ℕ) (reply : Reply) → IsReply bytes reply → reply_of bytes ≡ Some reply }
{}

/// A limit that is read back as it was written is shown, and nothing else is.
pub fn what_was_written_is_shown()
    ensures shown { (raw floor timer : ℕ) (values : List ℕ) → length values ≡ 8 → take 6 values ≡ limit_registers raw floor timer
        → reply_judgement floor timer (Some (reply.Regs values)) ≡ judged.Shows raw }
    ensures only { (raw floor timer : ℕ) (values : List ℕ) → AllByRecursion IsWord values
        → reply_judgement floor timer (Some (reply.Regs values)) ≡ judged.Shows raw
        → (length values ≡ 8) × (take 6 values ≡ limit_registers raw floor timer) }
{}
