//! What a stream of bytes determines, and how pieces join.

ghost use Rattle.std.specs.Prelude.{◌≡◌, ◌++◌, ◌∷◌, ℕ, List as Items, []};
ghost use Rattle.wire_format.specs.Feeding.{answers_of, bytes_of, Fed, IsFedTo, LeavesTail, tail, Feeds};
ghost use Rattle.wire_format.specs.Spelling.{EncodedIsRead, SpelledIsRead, SpelledStreamIsRead, ReadIsSpelled, ReadStreamIsSpelled, SecondIsEncoded, SpellingsHaveLengths, LengthsGivePlaces};
ghost use Rattle.wire_format.specs.Wire.{BeginsWith, Wire};
ghost use Rattle.wire_format.specs.declared.message.Message.{Message};
ghost use Rattle.wire_format.specs.declared.message.Rest.{Rest};

/// Each stream is some messages and a rest, in one way.
pub fn each_stream_has_one_reading()
    ensures some { (bytes : Items ℕ) → (messages : Items Message) × (rest : Rest) × Wire bytes messages rest }
    ensures messages { (bytes : Items ℕ) (messages others : Items Message) (rest other : Rest) →
        Wire bytes messages rest → Wire bytes others other → messages ≡ others }
    ensures rest { (bytes : Items ℕ) (messages others : Items Message) (rest other : Rest) →
        Wire bytes messages rest → Wire bytes others other → rest ≡ other }
{}

/// A feeder that was fed pieces, one after another, has answered the messages of the stream that they join to, and keeps the bytes
/// of its rest. Then one piece more gives the same as all of it at once.
pub fn pieces_join()
    ensures joined { (fed : Items Fed) (left : Items ℕ) → IsFedTo [] fed left → LeavesTail (bytes_of fed) (answers_of fed) left }
    ensures more { (fed : Items Fed) (left piece : Items ℕ) (messages : Items Message) (rest : Rest) → IsFedTo [] fed left
        → Wire (left ++ piece) messages rest → Wire (bytes_of fed ++ piece) (answers_of fed ++ messages) rest }
{}

/// What `encode` spells is read as the message, whatever bytes follow, and so is each other spelling. A stream of spellings is read so.
pub fn spellings_are_read()
    ensures encoded { EncodedIsRead }
    ensures spelled { SpelledIsRead }
    ensures stream { SpelledStreamIsRead }
{}

/// A message that is read has a spelling of its form at the front of the bytes, and form two's is what `encode` gives. So a stream is
/// spellings and its rest.
pub fn messages_are_spelled()
    ensures spelled { ReadIsSpelled }
    ensures stream { ReadStreamIsSpelled }
    ensures second { SecondIsEncoded }
{}

/// A spelling of form one has 128 bytes, one of form two 12 and its texts. What follows messages begins where these add up to.
pub fn lengths_give_places()
    ensures lengths { SpellingsHaveLengths }
    ensures places { LengthsGivePlaces }
{}
