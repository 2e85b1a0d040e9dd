// A command line, read one byte at a time, so that it may come in pieces.
ghost use Rattle.std.specs.Prelude.{◌≡◌};
ghost use Rattle.lines.specs.Lines.{digit_of, fresh, fed, fed_all, uses_node, uses_other, uses_list, right_fields, same_list, line_of, parsed, tested};

// What a line says: command, list, other list, node. (The command is a number and no enum: an order may be handed in with any, and one
// that is no command's is 11.)
#[derive(Clone, Copy, PartialEq, Eq)]
pub struct Order {
    pub code: u32,
    pub list: u32,
    pub other: u32,
    pub node: u32,
}

// A line so far: the number that its digits make, and how many they are. 11 says that it is malformed, whatever follows. (A count
// past ten and no `Option`: it is one comparison a byte.)
#[derive(Clone, Copy, PartialEq, Eq)]
pub struct Line {
    pub value: u64,
    pub count: u32,
}

// The value of a lower-case hexadecimal digit, 16 for any other byte. (`char::to_digit` takes upper case too; and 16 is no `Option`, for
// the reason that a line's count is none.)
#[tactic(auto, unfolding(crate::specs::Lines::digit_of))]
pub fn digit(b: u8) -> u64
    ensures { result ≡ digit_of b }
{
    match b {
        b'0'..=b'9' => (b - b'0') as u64,
        b'a'..=b'f' => (b - b'a') as u64 + 10,
        _ => 16,
    }
}

// The command uses the node field.
#[tactic(auto, unfolding(crate::specs::Lines::uses_node))]
fn uses_node(code: u32) -> bool
    ensures { result ≡ uses_node code }
{
    matches!(code, 1 | 2 | 4 | 16 | 17)
}

// The command uses the other list.
#[tactic(auto, unfolding(crate::specs::Lines::uses_other))]
pub fn uses_other(code: u32) -> bool
    ensures { result ≡ uses_other code }
{
    matches!(code, 5..=8 | 12)
}

// The command uses the list.
#[tactic(auto, unfolding(crate::specs::Lines::uses_list))]
fn uses_list(code: u32) -> bool
    ensures { result ≡ uses_list code }
{
    code != 20
}

// The command is known, and every field that it does not use is zero.
#[tactic(auto, unfolding(crate::specs::Lines::right_fields))]
pub fn right_fields(o: Order) -> bool
    ensures { result ≡ right_fields o }
{
    (1..=20).contains(&o.code)
        & (uses_list(o.code) | (o.list == 0))
        & (uses_other(o.code) | (o.other == 0))
        & (uses_node(o.code) | (o.node == 0))
}

// 3: the command uses both lists, and they are the same.
pub fn same_list(o: Order) -> bool
    ensures { result ≡ same_list o }
{
    uses_other(o.code) & (o.list == o.other)
}

// The test of refusal 11: None where the fields of an order are not right, or where there is none. A line that was read passes it again.
#[tactic(auto, unfolding(crate::specs::Lines::tested))]
pub fn tested(line: Option<Order>) -> Option<Order>
    ensures { result ≡ tested line }
{
    line.filter(|o| right_fields(*o))
}

impl Line {
    // Before the first byte.
    pub fn new() -> Line
        ensures { result ≡ fresh }
    {
        Line { value: 0, count: 0 }
    }

    // With one byte more, which is no line feed.
    #[tactic(auto, unfolding(crate::specs::Lines::fed))]
    pub fn feed(self, b: u8) -> Line
        ensures { result ≡ fed self b }
    {
        let d = digit(b);
        if (self.count < 10) & (d < 16) {
            return Line {
                value: (self.value % 0x10_0000_0000) * 16 + d,
                count: self.count + 1,
            };
        }
        Line {
            value: 0,
            count: 11,
        }
    }

    // With these bytes more, of which none is a line feed.
    #[tactic(auto, unfolding(crate::specs::Lines::fed_all))]
    pub fn feed_all(self, bytes: &[u8]) -> Line
        ensures { result ≡ fed_all self bytes.now }
    {
        bytes.iter().fold(self, |line, b| line.feed(*b))
    }

    // What the line says, once it has ended; None says that it is malformed (11).
    #[tactic(auto, unfolding(crate::specs::Lines::parsed, crate::specs::Lines::tested, crate::specs::Lines::order_of))]
    pub fn parse(self) -> Option<Order>
        ensures { result ≡ parsed self }
    {
        if self.count != 10 {
            return None;
        }
        let v = self.value;
        tested(Some(Order {
            code: (v / 0x1_0000_0000 % 256) as u32,
            list: (v / 0x100_0000 % 256) as u32,
            other: (v / 0x1_0000 % 256) as u32,
            node: (v % 0x1_0000) as u32,
        }))
    }
}

// What a whole line says (None: malformed), from its bytes without the line feed.
pub fn read(bytes: &[u8]) -> Option<Order>
    ensures { result ≡ line_of bytes.now }
{
    Line::new().feed_all(bytes).parse()
}
