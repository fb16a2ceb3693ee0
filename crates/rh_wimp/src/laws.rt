//! Laws over the definitions alone, each the contract of a function with nothing to do.
ghost use Rattle.std.specs.Prelude.{◌≡◌, ℕ, ℤ, false, true};
ghost use Rattle.rh_defs.specs.AnyMessage.{any_decoded};
ghost use Rattle.rh_defs.specs.Chain.{no_answer};
ghost use Rattle.rh_defs.specs.Heap.{Heap};
ghost use Rattle.rh_defs.specs.MessageImage.{decoded};
ghost use Rattle.rh_defs.specs.Messages.{is_kind};
ghost use Rattle.rh_defs.specs.declared.message.Message.{Message};
ghost use Rattle.rh_defs.specs.Module.{module_change, module_claim, module_free, module_resize};
ghost use Rattle.rh_defs.specs.Post.{Post, post_is_message};
ghost use Rattle.rh_wimp.specs.QueueLaws.{ComesBack, GoesBeside, HaveOnePost};

/// What `encode` wrote, `decode` reads as the same message where it is one of the six kinds, and `decode_any` whatever
/// it is: from the whole block, whatever stood behind the message in it, and from each front of the block that has the
/// message's length.
pub fn codec_law()
    ensures kinds { ComesBack (λ (m : Message). is_kind m.body ≡ true) decoded }
    ensures any { ComesBack (λ (m : Message). Unit) any_decoded }
{}

/// A queue and the module area spell one post, the one that is read from them; but the order of messages to different
/// tasks isn't spelled.
pub fn post_law()
    ensures { HaveOnePost }
{}

/// Blocks that hold no message are claimed, freed and resized beside a queue, and the module area gets longer and
/// shorter, as if the post's heap were the area's; each message stays.
pub fn beside_law()
    ensures claim { (n : ℕ) → GoesBeside (λ (post : Post). Unit) (λ (free : ℕ) (h : Heap). module_claim free n h) }
    ensures free { (a : ℕ) → GoesBeside (λ (post : Post). post_is_message a post ≡ false) (λ (free : ℕ)
        (h : Heap). no_answer (module_free a h)) }
    ensures resize { (a : ℕ) (delta : ℤ) → GoesBeside (λ (post : Post). post_is_message a post ≡ false) (λ (free : ℕ)
        (h : Heap). module_resize free a delta h) }
    ensures change { (delta : ℤ) → GoesBeside (λ (post : Post). Unit) (λ (free : ℕ)
        (h : Heap). module_change free delta h) }
{}
