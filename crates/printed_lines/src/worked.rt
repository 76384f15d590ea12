// The texts themselves on worked lines: these contracts are proved by computing the definitions, and no code
// is run.
ghost use Rattle.std.specs.Prelude.{◌≡◌, ◌∷◌, ◌++◌, [], codes, true, false, None, Some};
ghost use Rattle.load_cause.specs.declared.causes.Cause.TheVariants.{Missing, Source};
ghost use Rattle.image_format.specs.declared.refusal.Refusal.TheVariants.{Ppm, Bmp};
ghost use Rattle.ppm_read.specs.declared.fault.PpmFault.TheVariants as ppm_faults;
ghost use Rattle.bmp_read.specs.declared.fault.BmpFault.TheVariants as bmp_faults;
ghost use Rattle.printed_lines.specs.Printed.{PixelsLine, ShownLine, FailedLine, WaitingLine, line_text, run_text};
ghost use Rattle.printed_lines.specs.Printed.{says_failed, says_failed_source};
ghost use Rattle.printed_lines.specs.Worked.{a, red, abc, refused};

// A red pixel and a blue one, and the three bytes `abc` as alpha, whose digest FIPS 180-4's own example has.
fn worked_pictures()
    ensures pixels { line_text (PixelsLine a red) ≡ codes "a pixels ff0000ff0000ffff\n" }
    ensures shown { line_text (ShownLine a abc)
        ≡ codes "a shown 3 1 alpha ba7816bf8f01cfea414140de5dae2223b00361a396177a9cb410ff61f20015ad\n" }
{}

// Why a view failed: faults of the two readers that have one name have one word.
fn worked_failures()
    ensures missing { line_text (FailedLine a Missing) ≡ codes "a failed missing\n" }
    ensures unknown { line_text (refused (Ppm ppm_faults.BadMagic)) ≡ codes "a failed refused unknown\n" }
    ensures unknown_too { line_text (refused (Bmp bmp_faults.BadMagic)) ≡ codes "a failed refused unknown\n" }
    ensures compressed { line_text (refused (Bmp (bmp_faults.Compressed 10)))
        ≡ codes "a failed refused compressed 10\n" }
    ensures sample { line_text (refused (Ppm ppm_faults.SampleAbove))
        ≡ codes "a failed refused sample-above\n" }
    ensures waiting { line_text (WaitingLine a) ≡ codes "a waiting\n" }
{}

// A whole run, and what of its lines is a failure.
fn worked_runs()
    ensures bad_line { run_text (WaitingLine a ∷ []) (Some 3)
        ≡ codes "a waiting\nglide: bad script line 3\n" }
    ensures whole { run_text (WaitingLine a ∷ []) None ≡ codes "a waiting\n" }
    ensures failed { says_failed (FailedLine a Missing) ≡ true }
    ensures blameless { says_failed_source (FailedLine a Missing) ≡ false }
    ensures source { says_failed_source (FailedLine a Source) ≡ true }
{}
