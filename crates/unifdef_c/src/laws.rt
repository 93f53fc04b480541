//! Laws: functions without a body whose contracts are theorems. They follow from the contracts of
//! the calls for a stream.

ghost use Rattle.std.specs.Prelude.{◌≡◌, ◌++◌, [], ℕ, List, Bool, Result, Err};
ghost use Rattle.ud_engine.specs.declared.fault.RunFault.{RunFault};
ghost use Rattle.ud_engine.specs.declared.fault.RunFault.TheVariants.{Write};
ghost use Rattle.unifdef_c.specs.Streams.{BeginsStream, FeedsStream, EndsStream};
ghost use Rattle.unifdef_c.specs.StreamCourses.{GoesOn, HasStopped, IsAnswerOf, TakesOn};
ghost use Rattle.unifdef_c.specs.declared.stream.Stream.{Stream};
ghost use Rattle.unifdef_c.specs.declared.stream.Fed.{Fed};
ghost use Rattle.unifdef_c.specs.declared.stream.Fed.TheVariants as is;

/// A text fed to a stream in chunks, however it is cut, has the answer of the whole text, if no
/// memory is refused. Its output is what is taken from the stream, in order.
pub fn law_stream_answers()
    ensures begins { (args : List (List ℕ)) (s : Stream) → BeginsStream args s →
        GoesOn args [] [] s }
    ensures feeds { (args : List (List ℕ)) (text given chunk : List ℕ) (s t : Stream) →
        GoesOn args text given s → FeedsStream s t chunk is.Accepted →
        GoesOn args (text ++ chunk) given t }
    ensures stops { (args : List (List ℕ)) (text given chunk : List ℕ) (s t : Stream) →
        GoesOn args text given s → FeedsStream s t chunk is.Faulty →
        (f : RunFault) × HasStopped args (text ++ chunk) given t f }
    ensures takes { (args : List (List ℕ)) (text given more : List ℕ) (s t : Stream) →
        GoesOn args text given s → TakesOn given s more t → GoesOn args text more t }
    ensures answers { (args : List (List ℕ)) (text given : List ℕ) (s t : Stream)
        (r : Result Bool RunFault) → GoesOn args text given s → EndsStream s t r →
        ¬ (r ≡ Err Write) → IsAnswerOf args text given t r }
    // After a fault, more may be fed and taken before the end.
    ensures stopped_feeds { (args : List (List ℕ)) (text given chunk : List ℕ) (s t : Stream)
        (f : RunFault) (fed : Fed) → HasStopped args text given s f → FeedsStream s t chunk fed →
        HasStopped args text given t f }
    ensures stopped_takes { (args : List (List ℕ)) (text given more : List ℕ) (s t : Stream)
        (f : RunFault) → HasStopped args text given s f → TakesOn given s more t →
        HasStopped args text more t f }
    ensures stopped { (args : List (List ℕ)) (text given end : List ℕ) (s t : Stream)
        (f : RunFault) (r : Result Bool RunFault) → HasStopped args text given s f →
        EndsStream s t r → IsAnswerOf args (text ++ end) given t r }
    // After the end, the rest of the output is taken.
    ensures ended_takes { (args : List (List ℕ)) (text given more : List ℕ) (s t : Stream)
        (r : Result Bool RunFault) → IsAnswerOf args text given s r → TakesOn given s more t →
        IsAnswerOf args text more t r }
{}
