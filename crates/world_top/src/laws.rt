//! What the endings of the program say of it, whoever carries it out.

ghost use Rattle.std.specs.Prelude.{◌≡◌, ◌⊎◌, ℕ, ◌<◌, ◌≤◌, true, List, Some, length};
ghost use Rattle.ecs_io.specs.Streams.{Rose, Grows};
ghost use Rattle.world_top.specs.declared.outcome.FaultAt.{FaultAt};
ghost use Rattle.world_top.specs.declared.verb.Verb.{Verb};
ghost use Rattle.world_top.specs.Endings.{Ends, Streams, input_limit};
ghost use Rattle.world_top.specs.Output.{IsOutput, IsBadInput, IsPastLimit};
ghost use Rattle.world_top.specs.Words.{reads_input, verb_of};

use ecs_io::Sink;

/// Where the words are a command, the source told its input, which is within the limit and has an
/// output, and neither the source nor the sink failed, the program ends with 0, or with 7 for want of
/// memory. No memory.
pub fn good_inputs_are_printed<K: Sink, E: Sink>(words: &[String])
    ensures { (verb : Verb) (input bytes : List ℕ) (s : Streams) (old new : K)
        (told_before told_after : E) (faults_before faults_after number : ℕ) →
        Ends words.now s (K.holds old) (K.holds new) (E.holds told_before) (E.holds told_after)
        faults_before faults_after number →
        verb_of words.now ≡ Some verb →
        s.input ≡ Some input →
        length input ≤ input_limit →
        IsOutput verb input bytes →
        (Rose s.reads_before s.reads_after → ⊥) →
        (Rose s.writes_before s.writes_after → ⊥) →
        (number ≡ 0) ⊎ (number ≡ 7) }
{}

/// Where the words are a command, the source told its input, and the program ends with 0, the sink holds
/// what it held and then the output of the command for the input. So two such endings for one input have
/// printed the same. No memory.
pub fn success_prints_the_output<K: Sink, E: Sink>(words: &[String])
    ensures { (verb : Verb) (input bytes : List ℕ) (s : Streams) (old new : K)
        (told_before told_after : E) (faults_before faults_after : ℕ) →
        Ends words.now s (K.holds old) (K.holds new) (E.holds told_before) (E.holds told_after)
        faults_before faults_after 0 →
        verb_of words.now ≡ Some verb →
        s.input ≡ Some input →
        IsOutput verb input bytes →
        Grows (K.holds old) (K.holds new) bytes }
{}

/// Where the words are a command, the source told its input, which is within the limit and has a bad
/// line, or for `unpack` a bad field, and no read failed, the program ends with 3, or with 7 for want of
/// memory. No memory.
pub fn bad_inputs_are_told<K: Sink, E: Sink>(words: &[String])
    ensures { (verb : Verb) (input : List ℕ) (at : FaultAt) (s : Streams) (old new : K)
        (told_before told_after : E) (faults_before faults_after number : ℕ) →
        Ends words.now s (K.holds old) (K.holds new) (E.holds told_before) (E.holds told_after)
        faults_before faults_after number →
        verb_of words.now ≡ Some verb →
        s.input ≡ Some input →
        length input ≤ input_limit →
        IsBadInput verb input at →
        (Rose s.reads_before s.reads_after → ⊥) →
        (number ≡ 3) ⊎ (number ≡ 7) }
{}

/// Where the words are a command that reads its source, the source told its input, which is longer than
/// the limit, and no read failed, the program ends with 6, or with 7 for want of memory. No memory.
pub fn long_inputs_are_told<K: Sink, E: Sink>(words: &[String])
    ensures { (verb : Verb) (input : List ℕ) (s : Streams) (old new : K)
        (told_before told_after : E) (faults_before faults_after number : ℕ) →
        Ends words.now s (K.holds old) (K.holds new) (E.holds told_before) (E.holds told_after)
        faults_before faults_after number →
        verb_of words.now ≡ Some verb →
        s.input ≡ Some input →
        reads_input verb ≡ true →
        input_limit < length input →
        (Rose s.reads_before s.reads_after → ⊥) →
        (number ≡ 6) ⊎ (number ≡ 7) }
{}

/// Where the words are a command, the source told its input, which is within the limit and whose tick
/// number the command would take past its limit, and no read failed, the program ends with 8, or with 7
/// for want of memory. No memory.
pub fn past_inputs_are_told<K: Sink, E: Sink>(words: &[String])
    ensures { (verb : Verb) (input : List ℕ) (s : Streams) (old new : K)
        (told_before told_after : E) (faults_before faults_after number : ℕ) →
        Ends words.now s (K.holds old) (K.holds new) (E.holds told_before) (E.holds told_after)
        faults_before faults_after number →
        verb_of words.now ≡ Some verb →
        s.input ≡ Some input →
        length input ≤ input_limit →
        IsPastLimit verb input →
        (Rose s.reads_before s.reads_after → ⊥) →
        (number ≡ 8) ⊎ (number ≡ 7) }
{}
