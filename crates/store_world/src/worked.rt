// The definitions on worked examples: these contracts are proved by computing them, and no code is run.
ghost use Rattle.std.specs.Prelude.{◌≡◌, true, false, [], ◌∷◌, ◌++◌, length, None, codes};
ghost use Rattle.store_world.specs.declared.events.StoreEvent.TheVariants as events;
ghost use Rattle.store_world.specs.declared.events.StoreReply.TheVariants as replies;
ghost use Rattle.cache_key.specs.KeyBytes.{key_bytes_of};
ghost use Rattle.cache_key.specs.Worked.{red_key};
ghost use Rattle.store_world.specs.Envelopes.{envelope};
ghost use Rattle.store_world.specs.World.{queue_of};
ghost use Rattle.store_world.specs.Steps.{Transition, is_too_large};
ghost use Rattle.store_world.specs.Worked.{red_and_blue, store_of, store_off, key_k, first_wants, both_want, second_wants, second_has};

use cache_key::Which;

// The file of the source bytes of `red`, version `1`, which are a PPM text of two pixels.
fn worked_entry_file()
    ensures key { key_bytes_of Which.SourceBytes red_key ≡ codes "S\u{3}\0\0\0red\u{1}\0\0\01" }
    ensures text { envelope (key_bytes_of Which.SourceBytes red_key) red_and_blue
        ≡ codes "GLD1\r\0\0\0S\u{3}\0\0\0red\u{1}\0\0\01\u{11}\0\0\0P6\n2 1\n255\n"
        ++ 255 ∷ 0 ∷ 0 ∷ 0 ∷ 0 ∷ 255 ∷ [] }
    ensures length { length (envelope (key_bytes_of Which.SourceBytes red_key) red_and_blue) ≡ 42 }
{}

// Two seats want one key: the second has its lock once the first has left.
fn worked_lock_queue()
    ensures first { Transition (store_of []) 0 (events.Want key_k 42 17) replies.Done
        (store_of first_wants) }
    ensures second { Transition (store_of first_wants) 1 (events.Want key_k 42 17) replies.Done
        (store_of both_want) }
    ensures queue { queue_of key_k both_want ≡ 0 ∷ 1 ∷ [] }
    ensures waits { Transition (store_of both_want) 1 events.Granted (replies.Front false)
        (store_of both_want) }
    ensures leaves { Transition (store_of both_want) 0 events.Done replies.Done
        (store_of second_wants) }
    ensures has { Transition (store_of second_wants) 1 events.Granted (replies.Front true)
        (store_of second_has) }
{}

// An entry that is longer than all entries may be together is too large, and so is a payload that is longer than its length
// can say.
fn worked_too_large()
    ensures fits { is_too_large 100 100 4294967295 ≡ false }
    ensures entry { is_too_large 100 101 5 ≡ true }
    ensures payload { is_too_large 100 100 4294967296 ≡ true }
    ensures reply { Transition (store_of []) 0 (events.Want key_k 101 5) replies.TooLarge (store_of []) }
{}

// A store that is off answers so, and has nothing.
fn worked_off()
    ensures want { Transition store_off 0 (events.Want key_k 101 5) replies.Off store_off }
    ensures fetch { Transition store_off 0 (events.Fetch key_k) (replies.Bytes None) store_off }
{}
