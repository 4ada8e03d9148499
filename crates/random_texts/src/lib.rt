//! Random texts by seed. A text grows from templates: @ and a letter stand for one of a table of templates, until only
//! bytes are left. Texts of every stage come, half of them calm by how they are made; they are kept small, so that most
//! of them end. Mutated texts are such texts with a sign or a reserved word put into them, mostly no texts.

#![tactic(auto)]

ghost use Rattle.std.specs.Prelude.{◌≤◌, IfOk, vec_len};

use prng::Dice;
use std::alloc::{AllocError, Global};

/// Past so many bytes only the shortest templates are taken.
const BUDGET: usize = 160;
/// So many bytes and templates at most are taken for one text.
const STEPS: usize = 6000;
/// A text has at most so many bytes.
const MOST_BYTES: usize = 4000;

const LISTS: &[&str] = &["@I", "@I@I", "@I@I@I"];

const ITEMS: &[(u64, &str)] = &[
    (0, "@A; "),
    (0, "@A; "),
    (0, "@A\n"),
    (0, "@A\n\n"),
    (5, "@A & "),
];

const AND_ORS: &[&str] = &[
    "@P",
    "@P",
    "@P",
    "@P && @P",
    "@P || @P",
    "! @P",
    "@P && @P || @P",
];

const PIPELINES: &[&str] = &[
    "@C",
    "@C",
    "@C",
    "@M | @M",
    "@M | @M | @M",
    "seq @N | @M",
    "yes @B | head @N",
    "seq @N | @M | wc",
];

/// Commands of calm texts, by stage.
const CALM_COMMANDS: &[(u64, &str)] = &[
    (0, "@S"),
    (0, "@S"),
    (0, "@S"),
    (0, "@S"),
    (0, "{ @L}"),
    (0, "if @Lthen @Lfi"),
    (0, "if @Lthen @Lelse @Lfi"),
    (0, "if @Lthen @Lelif @Lthen @Lelse @Lfi"),
    (0, "i=; while test \"$i\" != aa; do i=a$i; @Ldone"),
    (0, "while false; do @Ldone"),
    (4, "for x in @W @W; do @Ldone"),
    (4, "for y in @W; do @Ldone"),
    (4, "case @W in when @W; @L;; when *; @L;; esac"),
    (5, "( @L)"),
];

/// Commands of other texts, by stage.
const COMMANDS: &[(u64, &str)] = &[
    (0, "@S"),
    (0, "@S"),
    (0, "@S"),
    (0, "@S"),
    (0, "{ @L}"),
    (0, "if @Lthen @Lfi"),
    (0, "if @Lthen @Lelse @Lfi"),
    (0, "i=; while test \"$i\" != aa; do i=a$i; @Ldone"),
    (0, "{ @L} > @F"),
    (0, "{ @L} < @F"),
    (0, "{ @L} >> @F << @W"),
    (0, "while read x; do @Ldone << 'a b\nc\n'"),
    (0, "if @Lthen @Lfi > @F"),
    (3, "f() { @L}"),
    (3, "g() { @L}"),
    (3, "f @W"),
    (3, "g @W @W"),
    (4, "for x in @W @W; do @Ldone"),
    (4, "for y in @W; do @Ldone > @F"),
    (4, "case @W in when @W; @L;; when *; @L;; esac"),
    (5, "( @L)"),
    (5, "( @L) > @F"),
    (5, "( @L)"),
    (5, "wait"),
];

/// Simple commands.
const SIMPLE: &[&str] = &[
    "echo @W",
    "echo @W @W",
    "echo @W",
    "echo @W > @F",
    "echo @W >> @F",
    "echo @W > @F",
    "cat @F",
    "cat @F @F",
    "cat",
    "cat < @F",
    "cat << @W",
    "wc < @F",
    "wc << @W",
    "head @N < @F",
    "grep @B < @F",
    "grep @B << @W",
    "@X=@W",
    "@X=@W @X=@W",
    "@X=@W echo @W",
    "test @W = @W",
    "test @W != @W",
    "test @N -lt @N",
    "test -e @F",
    "seq @N",
    "seq @N @N",
    "true",
    "false",
    "rm @F",
    "read @X < @F",
    "nosuch @W",
    "echo $?",
    "$x @W",
    "exit @N",
    "break",
    "continue",
    "return @N",
];

/// Commands inside a pipeline of a calm text, by stage.
const MEMBERS: &[(u64, &str)] = &[
    (0, "cat"),
    (0, "cat"),
    (0, "head @N"),
    (0, "wc"),
    (0, "grep @B"),
    (0, "seq @N"),
    (0, "echo @V @V"),
    (0, "true"),
    (0, "false"),
    (0, "cat < @F"),
    (0, "cat << @V"),
    (0, "test @V = @V"),
    (0, "@X=@V"),
    (0, "exit @N"),
    (0, "{ @T; @T; }"),
    (0, "if @T; then @T; @T; fi"),
    (0, "while false; do @T; done"),
    (4, "for x in @V @V; do @T; done"),
    (4, "case @V in when @V; @T ;; esac"),
    (5, "( @T; @T )"),
];

/// The first so many of them stand in the lists of the others.
const INNER_MEMBERS: usize = 12;

/// Words, by stage.
const WORDS: &[(u64, &str)] = &[
    (0, "@B"),
    (0, "@B"),
    (0, "'@B @B'"),
    (0, "\"@B  $x\""),
    (0, "$x"),
    (0, "$y"),
    (0, "\"$x\""),
    (0, "$?"),
    (0, "$x@B"),
    (0, "a$"),
    (0, "''"),
    (0, "'*'"),
    (0, "$z'@B'\"$y\""),
    (2, "$(@L)"),
    (2, "\"$(@L)\""),
    (2, "a$(@L)b"),
    (2, "$(@A)"),
    (3, "$1"),
    (3, "\"$2\""),
    (3, "$#"),
    (4, "*"),
    (4, "f*"),
    (4, "?"),
    (4, "\"f\"?*"),
];

/// Words without $( ).
const PLAIN: &[(u64, &str)] = &[
    (0, "@B"),
    (0, "@B"),
    (0, "'@B @B'"),
    (0, "$x"),
    (0, "\"$y\""),
    (0, "$?"),
    (4, "f*"),
];

const BYTES: &[&str] = &["a", "b", "ab", "c", "1", "2", "10", "-n", "x=y", "a#b"];

const NUMBERS: &[&str] = &["0", "1", "2", "3", "5", "12", "20", "300"];

const FILES: &[&str] = &["f", "g", "h", "'f g'"];

const NAMES: &[&str] = &["x", "y", "z"];

/// What is put into a text to spoil it.
const SPOILERS: &[&str] = &[
    "'", "\"", "(", ")", "$(", ";;", "; ;", "| |", "&&", "||", "> >", "<", " fi ", " done ",
    " then ", " do ", " } ", " { ", " esac ", " if ", " while ", " for ", " case ", " ! ! ",
];

/// What @ and a letter stand for.
#[derive(Clone, Copy, PartialEq, Eq, Debug)]
enum Kind {
    List,
    Item,
    AndOr,
    Pipeline,
    Command,
    /// A command inside a pipeline.
    Member,
    /// A command of a list inside a pipeline.
    InnerMember,
    Simple,
    Word,
    /// A word without $( ).
    PlainWord,
    Bytes,
    Number,
    File,
    Name,
}

/// A letter that stands for nothing.
#[derive(Clone, Copy, PartialEq, Eq, Debug)]
struct NoKind;

impl TryFrom<u8> for Kind {
    type Error = NoKind;

    fn try_from(letter: u8) -> Result<Kind, NoKind> {
        match letter {
            b'L' => Ok(Kind::List),
            b'I' => Ok(Kind::Item),
            b'A' => Ok(Kind::AndOr),
            b'P' => Ok(Kind::Pipeline),
            b'C' => Ok(Kind::Command),
            b'M' => Ok(Kind::Member),
            b'T' => Ok(Kind::InnerMember),
            b'S' => Ok(Kind::Simple),
            b'W' => Ok(Kind::Word),
            b'V' => Ok(Kind::PlainWord),
            b'B' => Ok(Kind::Bytes),
            b'N' => Ok(Kind::Number),
            b'F' => Ok(Kind::File),
            b'X' => Ok(Kind::Name),
            _ => Err(NoKind),
        }
    }
}

#[derive(Drop)]
struct Generator {
    dice: Dice,
    stage: u64,
    calm: bool,
    /// What is still to come, the next byte last.
    rest: Vec<u8>,
    text: Vec<u8>,
}

impl Generator {
    fn choose(&mut self, templates: &[&'static str]) -> &'static str {
        self.dice.choose(templates).copied().unwrap_or("")
    }

    /// One of the templates whose stage is at most this; they stand by stage.
    fn choose_up_to(&mut self, stage: u64, templates: &[(u64, &'static str)]) -> &'static str {
        let count = templates.partition_point(|template| template.0 <= stage);
        match self.dice.choose(templates.get(..count).unwrap_or(&[])) {
            Some((_, template)) => template,
            None => "",
        }
    }

    /// One of the templates of the text's stages.
    fn choose_by_stage(&mut self, templates: &[(u64, &'static str)]) -> &'static str {
        self.choose_up_to(self.stage, templates)
    }

    /// The shortest template, where a text is long enough.
    fn shortest(&self, kind: Kind) -> Option<&'static str> {
        match kind {
            Kind::List => Some("@I"),
            Kind::Item => Some("@A; "),
            Kind::AndOr => Some("@P"),
            Kind::Pipeline => Some("@C"),
            Kind::Command => Some("@S"),
            Kind::Member if self.calm => Some("cat"),
            Kind::Member => Some("@S"),
            Kind::Word | Kind::PlainWord => Some("@B"),
            _ => None,
        }
    }

    /// A template of this kind. A calm text has no & behind a command.
    /// One arm for each kind: they choose in different ways, by stage, up to a number, or freely.
    fn template(&mut self, kind: Kind) -> &'static str {
        match kind {
            Kind::List => self.choose(LISTS),
            Kind::Item if self.calm => self.choose_up_to(4, ITEMS),
            Kind::Item => self.choose_by_stage(ITEMS),
            Kind::AndOr => self.choose(AND_ORS),
            Kind::Pipeline if self.stage == 0 => "@C",
            Kind::Pipeline => self.choose(PIPELINES),
            Kind::Command if self.calm => self.choose_by_stage(CALM_COMMANDS),
            Kind::Command => self.choose_by_stage(COMMANDS),
            Kind::Member if self.calm => self.choose_by_stage(MEMBERS),
            Kind::Member => "@C",
            Kind::InnerMember => self.choose_by_stage(&MEMBERS[..INNER_MEMBERS]),
            Kind::Simple => self.choose(SIMPLE),
            Kind::Word => self.choose_by_stage(WORDS),
            Kind::PlainWord => self.choose_by_stage(PLAIN),
            Kind::Bytes => self.choose(BYTES),
            Kind::Number => self.choose(NUMBERS),
            Kind::File => self.choose(FILES),
            Kind::Name => self.choose(NAMES),
        }
    }

    fn push_template(&mut self, template: &str) -> Result<(), AllocError> {
        self.rest.extend(template.bytes().rev())
    }

    /// The next byte of what is to come: it goes into the text, or @ and a letter become a template.
    fn grow(&mut self, byte: u8) -> Result<(), AllocError> {
        if byte != b'@' {
            self.text.push(byte)?;
            return Ok(());
        }
        let Some(Ok(kind)) = self.rest.pop().map(|letter| Kind::try_from(letter)) else {
            return Ok(());
        };
        let full = self.text.len() > BUDGET || self.rest.len() > BUDGET;
        let template = match self.shortest(kind) {
            Some(short) if full => short,
            _ => self.template(kind),
        };
        self.push_template(template)
    }
}

/// A random text: its stage is at most the seed's remainder by 6, and each second six are calm.
pub fn random_text(heap: Global, seed: u64) -> Result<Vec<u8>, AllocError>
    ensures { IfOk result (λ t. vec_len t ≤ 4000) }
{
    let mut generator = Generator {
        dice: Dice::new(seed),
        stage: seed % 6,
        calm: seed / 6 % 2 == 0,
        rest: Vec::new(heap),
        text: Vec::new(heap),
    };
    generator.push_template("@L@L")?;
    // The budget is a count.
    for _ in 0..STEPS {
        let Some(byte) = generator.rest.pop() else {
            break;
        };
        generator.grow(byte)?;
    }
    let Generator { mut text, .. } = generator;
    text.truncate(MOST_BYTES);
    Ok(text)
}

/// A random text into which something is put at a random place.
pub fn mutated_text(heap: Global, seed: u64) -> Result<Vec<u8>, AllocError>
    ensures { IfOk result (λ t. vec_len t ≤ 4000) }
{
    let text = random_text(heap, seed)?;
    let mut dice = Dice::new(seed ^ 0x5555_5555);
    let (before, behind) = text.split_at(dice.below(text.len() + 1));
    let spoiler = dice.choose(SPOILERS).copied().unwrap_or("'");
    let mut spoiled = before.to_vec(heap)?;
    spoiled.extend_from_slice(spoiler.as_bytes())?;
    spoiled.extend_from_slice(behind)?;
    spoiled.truncate(MOST_BYTES);
    Ok(spoiled)
}
