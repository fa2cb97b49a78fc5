//! The law that messages are read back.
ghost use Rattle.std.specs.Prelude.{◌≡◌, Some};
ghost use Rattle.serde_json.specs.Data.{Data};
ghost use Rattle.st_msg.specs.Messages.{message_data, message_of, MessageView};
ghost use Rattle.st_msg.specs.Within.{IsSpelled, IsWithin};

/// The law that what is written for a message is read as that message, and that a value that is read as a message is what is
/// written for it, but for how the UUID of a join is spelled.
pub fn messages_are_read_back()
    ensures written { (m : MessageView) → IsWithin m → message_of (message_data m) ≡ Some m }
    ensures within { (d : Data) (m : MessageView) → message_of d ≡ Some m → IsWithin m }
    ensures read { (d : Data) (m : MessageView) → message_of d ≡ Some m → IsSpelled d m → d ≡ message_data m }
{}
