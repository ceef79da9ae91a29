// The routines, from x0200 on, each word with its line of docs/monitor.lst.
ghost use Rattle.std.specs.Prelude.{◌≡◌};
ghost use Rattle.monitor.specs.Routines.{routine_words};

const ROUTINES: [u16; 165] = [
    0xA07F, // x0200  GETC    LDI R0, KBSR
    0x07FE, // x0201          BRzp GETC
    0xA07E, // x0202          LDI R0, KBDR
    0x8000, // x0203          RTI
    0x1DBF, // x0204  OUT     ADD R6, R6, #-1
    0x7380, // x0205          STR R1, R6, #0
    0xA27B, // x0206  OUTPOLL LDI R1, DSR
    0x07FE, // x0207          BRzp OUTPOLL
    0xB07A, // x0208          STI R0, DDR
    0x6380, // x0209          LDR R1, R6, #0
    0x1DA1, // x020A          ADD R6, R6, #1
    0x8000, // x020B          RTI
    0x1DBD, // x020C  PUTS    ADD R6, R6, #-3
    0x7180, // x020D          STR R0, R6, #0
    0x7381, // x020E          STR R1, R6, #1
    0x7582, // x020F          STR R2, R6, #2
    0x6384, // x0210  PUTSTST LDR R1, R6, #4
    0x0606, // x0211          BRzp PUTSGET
    0x2272, // x0212          LD R1, ABOVE
    0x1201, // x0213          ADD R1, R0, R1
    0x0803, // x0214          BRn PUTSGET
    0x2470, // x0215          LD R2, BELOW
    0x1242, // x0216          ADD R1, R1, R2
    0x080C, // x0217          BRn PUTSBAD
    0x6200, // x0218  PUTSGET LDR R1, R0, #0
    0x0405, // x0219          BRz PUTSEND
    0xA467, // x021A  PUTSDSR LDI R2, DSR
    0x07FE, // x021B          BRzp PUTSDSR
    0xB266, // x021C          STI R1, DDR
    0x1021, // x021D          ADD R0, R0, #1
    0x0FF1, // x021E          BRnzp PUTSTST
    0x6180, // x021F  PUTSEND LDR R0, R6, #0
    0x6381, // x0220          LDR R1, R6, #1
    0x6582, // x0221          LDR R2, R6, #2
    0x1DA3, // x0222          ADD R6, R6, #3
    0x8000, // x0223          RTI
    0x6180, // x0224  PUTSBAD LDR R0, R6, #0
    0x6381, // x0225          LDR R1, R6, #1
    0x6582, // x0226          LDR R2, R6, #2
    0x0E54, // x0227          BRnzp STOP
    0x1DBE, // x0228  IN      ADD R6, R6, #-2
    0x7380, // x0229          STR R1, R6, #0
    0x7581, // x022A          STR R2, R6, #1
    0xE05D, // x022B          LEA R0, PROMPT
    0x6200, // x022C  INNEXT  LDR R1, R0, #0
    0x0405, // x022D          BRz INKEY
    0xA453, // x022E  INPOLL  LDI R2, DSR
    0x07FE, // x022F          BRzp INPOLL
    0xB252, // x0230          STI R1, DDR
    0x1021, // x0231          ADD R0, R0, #1
    0x0FF9, // x0232          BRnzp INNEXT
    0xA04C, // x0233  INKEY   LDI R0, KBSR
    0x07FE, // x0234          BRzp INKEY
    0xA04B, // x0235          LDI R0, KBDR
    0xA24B, // x0236  INECHO  LDI R1, DSR
    0x07FE, // x0237          BRzp INECHO
    0xB04A, // x0238          STI R0, DDR
    0x6380, // x0239          LDR R1, R6, #0
    0x6581, // x023A          LDR R2, R6, #1
    0x1DA2, // x023B          ADD R6, R6, #2
    0x8000, // x023C          RTI
    0x1DBC, // x023D  PUTSP   ADD R6, R6, #-4
    0x7180, // x023E          STR R0, R6, #0
    0x7381, // x023F          STR R1, R6, #1
    0x7582, // x0240          STR R2, R6, #2
    0x7783, // x0241          STR R3, R6, #3
    0x6385, // x0242  PAIRTST LDR R1, R6, #5
    0x0606, // x0243          BRzp PAIRGET
    0x2240, // x0244          LD R1, ABOVE
    0x1201, // x0245          ADD R1, R0, R1
    0x0803, // x0246          BRn PAIRGET
    0x243E, // x0247          LD R2, BELOW
    0x1242, // x0248          ADD R1, R1, R2
    0x081E, // x0249          BRn PAIRBAD
    0x6200, // x024A  PAIRGET LDR R1, R0, #0
    0x0416, // x024B          BRz PAIREND
    0x243A, // x024C          LD R2, BYTE
    0x5442, // x024D          AND R2, R1, R2
    0x0403, // x024E          BRz HIGH
    0xA632, // x024F  LOWDSR  LDI R3, DSR
    0x07FE, // x0250          BRzp LOWDSR
    0xB431, // x0251          STI R2, DDR
    0x54A0, // x0252  HIGH    AND R2, R2, #0
    0x16A8, // x0253          ADD R3, R2, #8
    0x1482, // x0254  SHIFT   ADD R2, R2, R2
    0x1260, // x0255          ADD R1, R1, #0
    0x0601, // x0256          BRzp ZERO
    0x14A1, // x0257          ADD R2, R2, #1
    0x1241, // x0258  ZERO    ADD R1, R1, R1
    0x16FF, // x0259          ADD R3, R3, #-1
    0x03F9, // x025A          BRp SHIFT
    0x14A0, // x025B          ADD R2, R2, #0
    0x0403, // x025C          BRz PAIRINC
    0xA624, // x025D  HIGHDSR LDI R3, DSR
    0x07FE, // x025E          BRzp HIGHDSR
    0xB423, // x025F          STI R2, DDR
    0x1021, // x0260  PAIRINC ADD R0, R0, #1
    0x0FE0, // x0261          BRnzp PAIRTST
    0x6180, // x0262  PAIREND LDR R0, R6, #0
    0x6381, // x0263          LDR R1, R6, #1
    0x6582, // x0264          LDR R2, R6, #2
    0x6783, // x0265          LDR R3, R6, #3
    0x1DA4, // x0266          ADD R6, R6, #4
    0x8000, // x0267          RTI
    0x6180, // x0268  PAIRBAD LDR R0, R6, #0
    0x6381, // x0269          LDR R1, R6, #1
    0x6582, // x026A          LDR R2, R6, #2
    0x6783, // x026B          LDR R3, R6, #3
    0x0E0F, // x026C          BRnzp STOP
    0x1DBD, // x026D  HALT    ADD R6, R6, #-3
    0x7180, // x026E          STR R0, R6, #0
    0x7381, // x026F          STR R1, R6, #1
    0x7582, // x0270          STR R2, R6, #2
    0xE02B, // x0271          LEA R0, MESSAGE
    0x6200, // x0272  HLTNEXT LDR R1, R0, #0
    0x0405, // x0273          BRz HLTEND
    0xA40D, // x0274  HLTPOLL LDI R2, DSR
    0x07FE, // x0275          BRzp HLTPOLL
    0xB20C, // x0276          STI R1, DDR
    0x1021, // x0277          ADD R0, R0, #1
    0x0FF9, // x0278          BRnzp HLTNEXT
    0x6180, // x0279  HLTEND  LDR R0, R6, #0
    0x6381, // x027A          LDR R1, R6, #1
    0x6582, // x027B          LDR R2, R6, #2
    0x2C0B, // x027C  STOP    LD R6, STACK
    0xBC06, // x027D          STI R6, MCR
    0x0FFD, // x027E          BRnzp STOP
    0x8000, // x027F  BACK    RTI
    0xFE00, // x0280  KBSR    .FILL xFE00
    0xFE02, // x0281  KBDR    .FILL xFE02
    0xFE04, // x0282  DSR     .FILL xFE04
    0xFE06, // x0283  DDR     .FILL xFE06
    0xFFFE, // x0284  MCR     .FILL xFFFE
    0x0200, // x0285  ABOVE   .FILL x0200
    0xCE00, // x0286  BELOW   .FILL xCE00
    0x00FF, // x0287  BYTE    .FILL x00FF
    0x2FFE, // x0288  STACK   .FILL x2FFE
    0x0049, // x0289  PROMPT  .FILL x0049
    0x006E, // x028A          .FILL x006E
    0x0070, // x028B          .FILL x0070
    0x0075, // x028C          .FILL x0075
    0x0074, // x028D          .FILL x0074
    0x0020, // x028E          .FILL x0020
    0x0061, // x028F          .FILL x0061
    0x0020, // x0290          .FILL x0020
    0x0063, // x0291          .FILL x0063
    0x0068, // x0292          .FILL x0068
    0x0061, // x0293          .FILL x0061
    0x0072, // x0294          .FILL x0072
    0x0061, // x0295          .FILL x0061
    0x0063, // x0296          .FILL x0063
    0x0074, // x0297          .FILL x0074
    0x0065, // x0298          .FILL x0065
    0x0072, // x0299          .FILL x0072
    0x003E, // x029A          .FILL x003E
    0x0020, // x029B          .FILL x0020
    0x0000, // x029C          .FILL x0000
    0x0048, // x029D  MESSAGE .FILL x0048
    0x0061, // x029E          .FILL x0061
    0x006C, // x029F          .FILL x006C
    0x0074, // x02A0          .FILL x0074
    0x0065, // x02A1          .FILL x0065
    0x0064, // x02A2          .FILL x0064
    0x000A, // x02A3          .FILL x000A
    0x0000, // x02A4          .FILL x0000
];

pub fn our_routines() -> [u16; 165]
    ensures { result ≡ routine_words }
{
    ROUTINES
}
