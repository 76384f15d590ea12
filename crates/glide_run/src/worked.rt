// The words of the promise on worked scripts: these contracts are proved by computing the definitions; no code is run.
ghost use Rattle.std.specs.Prelude.{[], ◌∷◌, Some, None, codes};
ghost use Rattle.glide_run.specs.Worked.{Gives, red_text, load_a};

use script_walk::ends_decide_the_walk;

// A picture that is printed, in either form, and a script that prints nothing.
fn worked_pictures()
    ensures dumped { Gives (Some red_text) (load_a ∷ codes "dump a" ∷ [])
        (codes "a pixels ff0000ff0000ffff" ∷ []) 0 }
    ensures shown { Gives (Some red_text) (load_a ∷ codes "show" ∷ [])
        (codes "a shown 2 1 argb e0b8f3a91e53b2aee7be9493043f0d54efa0b1d7bfa018ea8f192295a7229836" ∷ []) 0 }
    ensures silent { Gives (Some red_text) (load_a ∷ codes "wait" ∷ []) [] 0 }
{
    ends_decide_the_walk();
}

// A url that has nothing, and a text that is no picture: the status counts printed lines alone.
fn worked_failures()
    ensures missing { Gives None (load_a ∷ codes "dump a" ∷ []) (codes "a failed missing" ∷ []) 1 }
    ensures refused { Gives (Some (codes "hello")) (load_a ∷ codes "dump a" ∷ [])
        (codes "a failed refused unknown" ∷ []) 1 }
    ensures unprinted { Gives None (load_a ∷ codes "wait" ∷ []) [] 0 }
{
    ends_decide_the_walk();
}

// A bad line ends the run: what was printed before it stands. So does a line that is not built.
fn worked_bad_lines()
    ensures bad { Gives (Some red_text)
        (load_a ∷ codes "# shown" ∷ codes "dump a" ∷ codes "dumb a" ∷ codes "dump a" ∷ [])
        (codes "a pixels ff0000ff0000ffff" ∷ codes "glide: bad script line 4" ∷ []) 3 }
    ensures unknown { Gives None (codes "dump z" ∷ []) (codes "glide: bad script line 1" ∷ []) 3 }
    ensures not_built { Gives (Some red_text)
        (load_a ∷ codes "dump a" ∷ codes "load a red 1 2 1 none argb cached" ∷ codes "dump a" ∷ [])
        (codes "a pixels ff0000ff0000ffff" ∷ codes "glide: bad script line 3" ∷ []) 3 }
{
    ends_decide_the_walk();
}

// A view that is paused while its load runs says so, and shows its picture once it is resumed.
fn worked_pause()
    ensures { Gives (Some red_text)
        (load_a ∷ codes "pause" ∷ codes "show" ∷ codes "resume" ∷ codes "dump a" ∷ [])
        (codes "a paused" ∷ codes "a pixels ff0000ff0000ffff" ∷ []) 0 }
{
    ends_decide_the_walk();
}
